//! Formulas as they are written: node by node, with what is left to be written on a stack.
ghost use Rattle.std.specs.Prelude.{◌≡◌, ◌<◌, ◌≤◌, ◌++◌, All, OnOk, Some, length, slice_get};
ghost use Rattle.ps_formula.specs.Nodes.{Fits, AreNodes, AtomBelow};
ghost use Rattle.ps_problem.specs.Problems.{name_at};
ghost use Rattle.ps_canonical.specs.Lines.{Adds, formula_text};
ghost use Rattle.ps_canonical.specs.Tasks.{opening, closing_task, with_join, join_opening};
ghost use Rattle.ps_canonical.specs.Tasks.{IsTask, Begins, CarriesOut};

use crate::connective::Connective;
use crate::task::Task;
use crate::values::append;
use ps_formula::Node;
use ps_io::{List, NoMemory};
use ps_problem::Problem;
use std::alloc::Global;

// The node of a number.
fn node_at(problem: &Problem, i: u32) -> Node
    requires { i < length problem.now.nodes }
    ensures node { slice_get problem.now.nodes i ≡ Some result }
    ensures fits { Fits i result }
    ensures atom { AtomBelow (length problem.now.names) result }
    ensures sound { AreNodes problem.now.nodes }
{
    problem.formulas().nodes()[i as usize]
}

// Writes the name of an atom.
fn name(problem: &Problem, atom: u16, out: &mut Vec<u8>) -> Result<(), NoMemory>
    requires { atom < length problem.now.names }
    ensures { OnOk result (Adds out.old.items out.new.items (name_at problem.now.names atom)) }
{
    match problem.name(atom) {
        Some(name) => append(out, name),
        None => unreachable!(),
    }
}

// Writes a `(` where one is needed, and leaves the `)` to be written.
fn open(out: &mut Vec<u8>, tasks: &mut List<Task>, needed: bool) -> Result<(), NoMemory>
    ensures text { OnOk result (Adds out.old.items out.new.items (opening needed)) }
    ensures tasks { OnOk result (tasks.new ≡ tasks.old ++ closing_task needed) }
{
    if needed {
        append(out, b"(")?;
        tasks.push(Task::Close)?;
    }
    Ok(())
}

// Leaves two operands and the connective between them to be written.
fn join(
    out: &mut Vec<u8>,
    tasks: &mut List<Task>,
    connective: Connective,
    left: u32,
    right: u32,
    level: u32,
) -> Result<(), NoMemory>
    ensures text { OnOk result (Adds out.old.items out.new.items (join_opening connective level)) }
    ensures tasks { OnOk result (tasks.new ≡ with_join tasks.old level left connective right) }
{
    open(out, tasks, connective.level() < level)?;
    tasks.push(Task::Formula {
        node: right,
        level: connective.right(),
    })?;
    tasks.push(Task::Connective(connective))?;
    tasks.push(Task::Formula {
        node: left,
        level: connective.left(),
    })
}

// Writes a node as far as its operands, which are left to be written.
fn begin(
    problem: &Problem,
    i: u32,
    level: u32,
    tasks: &mut List<Task>,
    out: &mut Vec<u8>,
) -> Result<(), NoMemory>
    requires there { i < length problem.now.nodes }
    requires level { level ≤ 5 }
    requires tasks { All (IsTask (length problem.now.nodes)) tasks.old }
    ensures { Begins problem.now i level
        (tasks.old, out.old.items) (tasks.new, out.new.items) result }
{
    match node_at(problem, i) {
        Node::True => append(out, b"true"),
        Node::False => append(out, b"false"),
        Node::Atom(atom) => name(problem, atom, out),
        Node::Not(operand) => {
            append(out, b"!")?;
            tasks.push(Task::Formula {
                node: operand,
                level: 5,
            })
        }
        Node::And(left, right) => join(out, tasks, Connective::And, left, right, level),
        Node::Or(left, right) => join(out, tasks, Connective::Or, left, right, level),
        Node::Implies(left, right) => join(out, tasks, Connective::Implies, left, right, level),
        Node::Iff(left, right) => join(out, tasks, Connective::Iff, left, right, level),
    }
}

// Carries out a task.
fn step(
    problem: &Problem,
    task: Task,
    tasks: &mut List<Task>,
    out: &mut Vec<u8>,
) -> Result<(), NoMemory>
    requires task { IsTask (length problem.now.nodes) task }
    requires tasks { All (IsTask (length problem.now.nodes)) tasks.old }
    ensures { CarriesOut problem.now task
        (tasks.old, out.old.items) (tasks.new, out.new.items) result }
{
    match task {
        Task::Formula { node, level } => begin(problem, node, level, tasks, out),
        Task::Connective(connective) => append(out, connective.sign()),
        Task::Close => append(out, b")"),
    }
}

// Writes a formula by its number.
pub(crate) fn formula(
    alloc: Global,
    problem: &Problem,
    root: u32,
    out: &mut Vec<u8>,
) -> Result<(), NoMemory>
    requires { root < length problem.now.nodes }
    ensures { OnOk result (Adds out.old.items out.new.items (formula_text problem.now root)) }
{
    let mut tasks = List::new(alloc);
    tasks.push(Task::Formula {
        node: root,
        level: 1,
    })?;
    while let Some(task) = tasks.pop() {
        step(problem, task, &mut tasks, out)?;
    }
    Ok(())
}
