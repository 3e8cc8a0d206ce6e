//! The numbering of formulas and atoms.
ghost use Rattle.std.specs.Prelude.{◌≡◌, ◌≤◌, ◌<◌, [], All, OnOk, length, nat_eq};
ghost use Rattle.ps_formula.specs.Nodes.{Fits};
ghost use Rattle.ps_problem.specs.Numbering.{place_in};
ghost use Rattle.ps_problem.specs.Drafts.{arity, AreBelow};
ghost use Rattle.ps_problem.specs.Numbered.{Built, node_over, IsAdded, NumbersAtom};
ghost use Rattle.ps_problem.specs.Numbered.{NumbersMark, NumbersParts, NumbersQuestion, replaced};
ghost use Rattle.ps_problem.specs.Numbered.{NumbersTerms};
ghost use Rattle.ps_problem.specs.Drafts.{IsDraftTerm};
ghost use Rattle.ps_problem.specs.Scales.{IsNumberTerm};
ghost use Rattle.ps_problem.specs.declared.limits.TheConstants.{GREATEST_SCALE};
ghost use Rattle.ps_formula.specs.declared.limits.TheConstants.{MOST_ATOMS};

use crate::excess::Excess;
use crate::fault::Fault;
use crate::scale::whole;
use crate::{Draft, LinearTerms, Mark, Query, Term};
use ps_formula::{AddError, Formulas, MOST_ATOMS, Node};
use ps_io::{List, NoMemory};
use std::alloc::Global;

// The first place of a number, or the length where it isn't there.
fn place_of(numbers: &[u32], n: u32) -> usize
    ensures { result ≡ place_in nat_eq numbers.now n }
{
    for (i, m) in numbers.iter().enumerate() {
        if n == *m {
            return i;
        }
    }
    numbers.len()
}

// The number of operands of a mark.
fn operands(mark: Mark) -> usize
    ensures { result ≡ arity mark }
{
    match mark {
        Mark::True | Mark::False | Mark::Name(_) => 0,
        Mark::Not => 1,
        _ => 2,
    }
}

// The node of an operator over numbers of nodes; of a name it says nothing.
fn node_of(mark: Mark, stack: &[u32]) -> Node
    requires { arity mark ≤ length stack.now }
    ensures { result ≡ node_over stack.now mark }
{
    let n = stack.len();
    match mark {
        Mark::True => Node::True,
        Mark::False => Node::False,
        Mark::Name(_) => Node::True,
        Mark::Not => Node::Not(stack[n - 1]),
        Mark::And => Node::And(stack[n - 2], stack[n - 1]),
        Mark::Or => Node::Or(stack[n - 2], stack[n - 1]),
        Mark::Implies => Node::Implies(stack[n - 2], stack[n - 1]),
        Mark::Iff => Node::Iff(stack[n - 2], stack[n - 1]),
    }
}

/// Formulas as far as they are numbered, and the atoms among them by the numbers of their names.
#[derive(Drop)]
pub(crate) struct Building {
    pub(crate) atoms: List<u32>,
    pub(crate) formulas: Formulas,
}

impl Building {
    pub(crate) fn new(alloc: Global) -> Building
        ensures atoms { result.atoms ≡ [] }
        ensures formulas { result.formulas ≡ [] }
    {
        Building {
            atoms: List::new(alloc),
            formulas: Formulas::new(alloc),
        }
    }

    // The number of a node, which is added where it isn't there.
    fn node(&mut self, node: Node) -> Result<u32, Fault>
        requires { Fits (length self.old.formulas) node }
        ensures atoms { self.new.atoms ≡ self.old.atoms }
        ensures nodes { IsAdded self.old.formulas node self.new.formulas result }
    {
        match self.formulas.add(node) {
            Ok(i) => Ok(i),
            Err(AddError::Full) => Err(Fault::TooMany(Excess::Nodes)),
            Err(AddError::NoMemory) => Err(Fault::NoMemory),
        }
    }

    // The number of an atom's node, which is added where it isn't there.
    fn atom(&mut self, name: u32) -> Result<u32, Fault>
        requires few { length self.old.atoms ≤ MOST_ATOMS }
        ensures { NumbersAtom self.old name self.new result }
    {
        let place = place_of(self.atoms.as_slice(), name);
        if place < self.atoms.len() {
            return self.node(Node::Atom(place as u16));
        }
        if place >= MOST_ATOMS {
            return Err(Fault::TooMany(Excess::Atoms));
        }
        let number = self.node(Node::Atom(place as u16))?;
        self.atoms.push(name)?;
        Ok(number)
    }

    // The number of a mark's formula over the numbers of those that stand open.
    fn mark(&mut self, stack: &[u32], mark: Mark) -> Result<u32, Fault>
        requires operands { arity mark ≤ length stack.now }
        requires below { All (λ i. i < length self.old.formulas) stack.now }
        requires few { length self.old.atoms ≤ MOST_ATOMS }
        ensures { NumbersMark self.old stack.now mark self.new result }
    {
        if let Mark::Name(name) = mark {
            return self.atom(name);
        }
        self.node(node_of(mark, stack))
    }

    // Numbers the parts of a formula of a draft, and gives its own number.
    fn formula(&mut self, alloc: Global, draft: &Draft, formula: u32) -> Result<u32, Fault>
        requires formula { formula < length draft.now.formulas }
        requires built { Built draft.now.names self.old.atoms self.old.formulas }
        ensures { NumbersParts draft.now self.old formula self.new result }
    {
        let marks = draft.marks(formula);
        let mut stack = Vec::new(alloc);
        for mark in marks {
            let number = self.mark(&stack, *mark)?;
            replace(&mut stack, operands(*mark), number)?;
        }
        Ok(stack[0])
    }

    // Numbers the parts of a formula of a draft and perhaps of a condition, and then both together.
    pub(crate) fn query(
        &mut self,
        alloc: Global,
        draft: &Draft,
        formula: u32,
        given: Option<u32>,
    ) -> Result<Query, Fault>
        requires formulas { AreBelow (length draft.now.formulas) formula given }
        requires built { Built draft.now.names self.old.atoms self.old.formulas }
        ensures { NumbersQuestion draft.now self.old formula given self.new result }
    {
        let first = self.formula(alloc, draft, formula)?;
        let condition = match given {
            Some(condition) => condition,
            None => {
                return Ok(Query {
                    formula: first,
                    given: None,
                    both: first,
                });
            }
        };
        let second = self.formula(alloc, draft, condition)?;
        let both = self.node(Node::And(first, second))?;
        Ok(Query {
            formula: first,
            given: Some(second),
            both,
        })
    }
}

impl Building {
    // Numbers the parts of terms' formulas in order, and gives their numbers, each with the term's
    // coefficient times a scale.
    pub(crate) fn terms(
        &mut self,
        alloc: Global,
        draft: &Draft,
        terms: &[Term],
        scale: u32,
    ) -> Result<LinearTerms, Fault>
        requires terms { All (IsDraftTerm (length draft.now.formulas)) terms.now }
        requires numbers { All IsNumberTerm terms.now }
        requires small { scale ≤ GREATEST_SCALE }
        requires built { Built draft.now.names self.old.atoms self.old.formulas }
        ensures { NumbersTerms draft.now self.old scale terms.now self.new result }
    {
        let mut made = List::new(alloc);
        for term in terms {
            let number = self.formula(alloc, draft, term.formula)?;
            made.push((number, whole(scale, term.coefficient)))?;
        }
        Ok(made)
    }
}

// Puts a number in the place of the last ones.
fn replace(stack: &mut Vec<u32>, count: usize, number: u32) -> Result<(), NoMemory>
    requires { count ≤ length stack.old.items }
    ensures { OnOk result (stack.new.items ≡ replaced stack.old.items count number) }
{
    let kept = stack.len() - count;
    stack.truncate(kept);
    stack.push(number)?;
    Ok(())
}
