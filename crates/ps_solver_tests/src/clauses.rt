//! What no clause says: that calls succeed where there is memory. And the clauses of an
//! implication, and the world of its atoms, by hand.
ghost use Rattle.std.specs.Prelude.{◌≤◌, length, All, OnOk, IfOk};
ghost use Rattle.ps_formula.specs.Nodes.{Fits, AtomBelow};
ghost use Rattle.ps_pb.specs.declared.limits.TheConstants.{MOST_VARIABLES};

use ps_clause::{ClauseForm, clauses_of, names_of, world_of};
use ps_formula::{Formulas, Node};
use ps_pb::{Assignment, Lit};
use std::alloc::Global;
use std::test::*;

/// The clauses of `implication`, each by rising variable.
const CLAUSES: [&[i32]; 3] = [&[1, 3], &[-2, 3], &[-1, 2, -3]];

/// Adds a node over two nodes and two atoms.
fn add(formulas: &mut Formulas, node: Node) -> Result<u32, Fail>
    requires two { 2 ≤ length formulas.old }
    requires fits { Fits 2 node }
    requires old_atoms { All (AtomBelow 2) formulas.old }
    requires atom { AtomBelow 2 node }
    ensures atoms { OnOk result (All (AtomBelow 2) formulas.new) }
{
    Ok(formulas.add(node)?)
}

/// The nodes stand in another order than the atoms' numbers.
fn implication(alloc: Global) -> Result<Formulas, Fail>
    ensures { IfOk result (λ formulas. All (AtomBelow 2) formulas) }
{
    let mut formulas = Formulas::new(alloc);
    formulas.add(Node::Atom(1))?;
    formulas.add(Node::Atom(0))?;
    add(&mut formulas, Node::Implies(0, 1))?;
    Ok(formulas)
}

/// Whether a clause has these literals.
fn is_clause(form: &ClauseForm, id: u32, numbers: &[i32]) -> bool {
    let Some(clause) = form.clause(id) else {
        return false;
    };
    let terms = clause.terms().as_slice();
    if clause.degree() != 1 || terms.len() != numbers.len() {
        return false;
    }
    for (i, term) in terms.iter().enumerate() {
        if term.1 != 1 || numbers.get(i) != Some(&term.0.number()) {
            return false;
        }
    }
    true
}

fn has_clauses(form: &ClauseForm) -> bool {
    form.clauses() == 3
        && is_clause(form, 1, CLAUSES[0])
        && is_clause(form, 2, CLAUSES[1])
        && is_clause(form, 3, CLAUSES[2])
}

fn are_values(names: &Assignment, values: &[bool]) -> bool
    requires { length values.now ≤ MOST_VARIABLES }
{
    for (i, value) in values.iter().enumerate() {
        if names.value(i as u32 + 1) != Some(*value) {
            return false;
        }
    }
    true
}

#[test]
fn the_clauses_of_an_implication(rt: HostRuntime) -> Result<(), Fail> {
    let alloc = rt.alloc();
    let formulas = implication(alloc)?;
    let form = clauses_of(alloc, &formulas)?.copy(alloc)?;
    assert!(rt; has_clauses(&form));
    Ok(())
}

#[test]
fn a_clause_is_added(rt: HostRuntime) -> Result<(), Fail> {
    let mut form = ClauseForm::new(rt.alloc(), 2);
    form.add(&[Lit::of_place(1, false)])?;
    assert!(rt; is_clause(&form, 1, &[-2]) && form.is_atom(2));
    Ok(())
}

#[test]
fn the_world_of_an_assignment(rt: HostRuntime) -> Result<(), Fail> {
    let alloc = rt.alloc();
    let formulas = implication(alloc)?;
    let mut values = Assignment::new(alloc, 3)?;
    values.set(Lit::of_place(0, true));
    values.set(Lit::of_place(1, false));
    let world = world_of(alloc, &formulas, 2, &values)?;
    assert!(rt; world.as_slice() == [false, true].as_slice());
    let names = names_of(alloc, &formulas, &world)?;
    assert!(rt; are_values(&names, &[true, false, false]));
    Ok(())
}
