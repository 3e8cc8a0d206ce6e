//! What the checker knows.
ghost use Rattle.std.specs.Prelude.{◌≡◌, ◌++◌, [], ◌∷◌, length, map};
ghost use Rattle.std.specs.Prelude.{IfOk, OnOk, OnErr};
ghost use Rattle.ps_pb.specs.Assignments.{AreDifferent};
ghost use Rattle.ps_pb.specs.Weights.{clause_of};
ghost use Rattle.ps_pb.specs.Steps.{constraint_at, known_of};
ghost use Rattle.ps_pbcheck.specs.Followed.{lits_in, Follows};

use crate::clauses::Clauses;
use crate::propagation::propagate_clause;
use ps_clause::ClauseForm;
use ps_io::NoMemory;
use ps_pb::{Assignment, Constraint, Effect, Lit, Lits, propagate};
use std::alloc::Global;
use std::marker::Model;

/// The goal, with the clauses of a form before it and those of steps behind it. Of clauses the
/// literals alone are kept.
#[derive(Drop)]
pub(crate) struct Held {
    clauses: Clauses,
    // How many clauses stand before the goal.
    before: usize,
    goal: Box<Constraint>,
}

impl Model for Held {
    ghost use Rattle.std.specs.Prelude.{List, All, length, ◌≤◌};
    ghost use Rattle.ps_pb.specs.Assignments.{AreDifferent};
    ghost use Rattle.ps_pb.specs.Constraints.{Constraint as Linear};
    ghost use Rattle.ps_pbcheck.specs.Followed.{held_of};

    ghost Value = { List Linear };

    ghost view = { λ h. held_of h.clauses h.before h.goal.value };

    ghost invariant = { λ h. (h.before ≤ length h.clauses) × All AreDifferent h.clauses };
}

impl Held {
    /// The clauses of a form, and a goal behind them.
    pub(crate) fn new(alloc: Global, form: ClauseForm, goal: Constraint) -> Result<Held, NoMemory>
        ensures { IfOk result (λ h. h ≡ form.clauses ++ goal ∷ []) }
    {
        // Called for its clause: each constraint of the form is a clause.
        let _variables = form.variables();
        let constraints = form.into_clauses();
        let clauses = clauses_of(alloc, constraints.as_slice())?;
        Ok(Held {
            before: clauses.len(),
            clauses,
            goal: Box::new(alloc, goal)?,
        })
    }

    /// How many constraints are known.
    pub(crate) fn len(&self) -> usize
        ensures { result ≡ length self.now }
    {
        self.clauses.len() + 1
    }

    /// What the constraint of an id does to an assignment. `None` where no constraint has it.
    pub(crate) fn follow(&self, id: u64, a: &mut Assignment) -> Option<Effect>
        ensures { Follows (constraint_at (known_of self.now) id) a.old a.new result }
    {
        if id == 0 {
            return None;
        }
        let place = (id - 1) as usize;
        if place == self.before {
            return Some(propagate(&self.goal, a));
        }
        let lits = self.clauses.get(place - usize::from(self.before < place))?;
        Some(propagate_clause(lits, a))
    }

    /// Knows the clause of some literals too.
    pub(crate) fn push(&mut self, lits: &[Lit]) -> Result<(), NoMemory>
        requires { AreDifferent lits.now }
        ensures ok { OnOk result (self.new ≡ self.old ++ clause_of lits.now ∷ []) }
        ensures err { OnErr result (self.new ≡ self.old) }
    {
        self.clauses.push(lits)
    }
}

// The literals of a constraint.
fn lits_of(alloc: Global, c: &Constraint) -> Result<Lits, NoMemory>
    ensures { IfOk result (λ lits. lits ≡ lits_in c.now) }
{
    let mut lits = Lits::new(alloc);
    for term in c.terms().as_slice() {
        lits.push(term.0)?;
    }
    Ok(lits)
}

// The clauses of the literals of constraints.
fn clauses_of(alloc: Global, constraints: &[Constraint]) -> Result<Clauses, NoMemory>
    ensures { IfOk result (λ clauses. clauses ≡ map lits_in constraints.now) }
{
    let mut clauses = Clauses::new(alloc);
    for constraint in constraints {
        clauses.push(lits_of(alloc, constraint)?.as_slice())?;
    }
    Ok(clauses)
}
