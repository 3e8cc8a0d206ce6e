//! The checker of steps.
ghost use Rattle.std.specs.Prelude.{◌≡◌, ◌++◌, ◌∷◌, [], IfOk, IfErr, OnOk, OnErr};
ghost use Rattle.std.specs.Prelude.{true, Some, fold, length};
ghost use Rattle.ps_pb.specs.declared.refused.StepRefused.TheVariants.{NoMemory as Lack};
ghost use Rattle.ps_pb.specs.Assignments.{all_unset, AreDifferent};
ghost use Rattle.ps_pb.specs.Weights.{clause_of};
ghost use Rattle.ps_pb.specs.Steps.{known_of, refusal_of, and_false, Entails, IsUnmet};
ghost use Rattle.ps_pbcheck.specs.Checked.{first_checked, after_step, AnswersStep};
ghost use Rattle.ps_pbcheck.specs.Judged.{AllFalse};

use crate::held::Held;
use crate::hints::follow_hints;
use ps_clause::ClauseForm;
use ps_io::NoMemory;
use ps_pb::{Assignment, Constraint, Lit, Step, StepRefused};
use std::alloc::Global;
use std::marker::Model;

/// The known constraints, and whether the last step taken has no literals.
#[derive(Drop)]
pub struct Checker {
    alloc: Global,
    // The variables, none with a value: for each step a copy is made.
    unset: Assignment,
    known: Held,
    refuted: bool,
}

impl Model for Checker {
    ghost use Rattle.std.specs.Prelude.{◌≡◌, true, length};
    ghost use Rattle.ps_pb.specs.Assignments.{all_unset};
    ghost use Rattle.ps_pb.specs.Weights.{clause_of};
    ghost use Rattle.ps_pb.specs.Steps.{known_of, IsUnmet};
    ghost use Rattle.ps_pbcheck.specs.Checked.{Checked, checked_of};

    ghost Value = { Checked };

    ghost view = { λ c. checked_of (length c.unset) c.known c.refuted };

    ghost invariant = { λ c. (c.unset ≡ all_unset (length c.unset))
        × (c.refuted ≡ true → IsUnmet (known_of c.known)) };
}

impl Checker {
    /// Knows the clauses of a form, under the ids from 1 on, and then the goal.
    pub fn new(alloc: Global, form: ClauseForm, goal: Constraint) -> Result<Checker, NoMemory>
        ensures { IfOk result (λ c. c ≡ first_checked form goal) }
    {
        let variables = form.variables();
        Ok(Checker {
            alloc,
            unset: Assignment::new(alloc, variables)?,
            known: Held::new(alloc, form, goal)?,
            refuted: false,
        })
    }

    /// Takes a step where it is lawful (reverse unit propagation; Goldberg and Novikov, 2003).
    /// Otherwise the first reason is answered, and the checker is unchanged.
    pub fn take(&mut self, s: &Step) -> Result<(), StepRefused>
        ensures judged { AnswersStep (refusal_of self.old.variables self.old.known s.now) result }
        ensures ok { OnOk result (self.new ≡ after_step self.old s.now) }
        ensures err { OnErr result (self.new ≡ self.old) }

        // Each full assignment that met what was known meets what is known now.
        ensures entailed { OnOk result (Entails self.old.known self.new.known) }
    {
        judge(self.alloc, &self.unset, &self.known, s)?;
        push(&mut self.known, s.lits.as_slice())?;
        self.refuted = s.lits.as_slice().is_empty();
        Ok(())
    }

    /// Whether the last step taken has no literals. Then no full assignment meets what is known.
    pub fn refuted(&self) -> bool
        ensures value { result ≡ self.now.refuted }
        ensures unmet { result ≡ true → IsUnmet self.now.known }
    {
        self.refuted
    }
}

fn no_memory(_: NoMemory) -> StepRefused
    ensures { result ≡ Lack }
{
    StepRefused::NoMemory
}

fn push(known: &mut Held, lits: &[Lit]) -> Result<(), StepRefused>
    requires { AreDifferent lits.now }
    ensures ok { OnOk result (known.new ≡ known.old ++ clause_of lits.now ∷ []) }
    ensures err { OnErr result (known.new ≡ known.old) }
    ensures lack { IfErr result (λ e. e ≡ Lack) }
{
    known.push(lits).map_err(no_memory)
}

/// Why a step isn't lawful, if it isn't.
#[tactic(auto, using(ps_pb::proofs::Ids::ids), unfolding(ps_pb::specs::Steps::all_false))]
fn judge(alloc: Global, unset: &Assignment, known: &Held, s: &Step) -> Result<(), StepRefused>
    requires { unset.now ≡ all_unset (length unset.now) }
    ensures { AnswersStep (refusal_of (length unset.now) (known_of known.now) s.now) result }
{
    if s.id == 0 || s.id - 1 != known.len() as u64 {
        return Err(StepRefused::IdNotNext);
    }
    let mut a = unset.copy(alloc).map_err(no_memory)?;
    if !set_all_false(&mut a, s.lits.as_slice()) {
        return Err(StepRefused::BadLit);
    }
    follow_hints(known, &mut a, s.hints.as_slice())
}

/// Sets a literal false, unless its variable is past the last or was set.
fn set_one_false(a: &mut Assignment, lit: Lit) -> bool
    ensures { AllFalse (and_false (Some a.old) lit) result a.new }
{
    if lit.place() < a.len() && a.value_of(lit).is_none() {
        a.set_false(lit);
        true
    } else {
        false
    }
}

/// Sets each literal false, until one is bad.
fn set_all_false(a: &mut Assignment, lits: &[Lit]) -> bool
    ensures { AllFalse (fold and_false (Some a.old) lits.now) result a.new }
{
    for lit in lits {
        if !set_one_false(a, *lit) {
            return false;
        }
    }
    true
}
