//! A search for one goal, with its steps.
ghost use Rattle.std.specs.Prelude.{◌≤◌, IfOk};
ghost use Rattle.ps_clause.specs.Forms.{IsWithin};
ghost use Rattle.ps_log.specs.declared.limits.TheConstants.{MOST_CONFLICTS};
ghost use Rattle.ps_sat.specs.Searches.{IsOutcome};
ghost use Rattle.ps_claims.specs.Printed.{AreOfLiterals};
ghost use Rattle.ps_guess.specs.Steps.{HasFewSteps};

use ps_clause::ClauseForm;
use ps_io::NoMemory;
use ps_log::HeldLog;
use ps_pb::{Constraint, Steps};
use ps_sat::{Outcome, SearchError, search};
use std::alloc::Global;

/// What a search ended with, and the steps that it learned.
#[derive(Drop)]
pub(crate) struct Searched {
    pub(crate) outcome: Outcome,
    pub(crate) steps: Steps,
}

/// Looks for a full assignment that meets each clause of the form and the goal.
pub(crate) fn seek(
    alloc: Global,
    form: &ClauseForm,
    goal: &Constraint,
    conflicts: u64,
) -> Result<Searched, NoMemory>
    requires goal { IsWithin form.now.variables goal.now }
    requires few { conflicts ≤ MOST_CONFLICTS }
    ensures outcome { IfOk result (λ s. IsOutcome form.now goal.now conflicts s.outcome) }
    ensures few { IfOk result (λ s. HasFewSteps conflicts s.outcome s.steps) }
    ensures literals { IfOk result (λ s. AreOfLiterals s.steps) }
{
    let mut log = HeldLog::new(alloc);
    match search(alloc, form, goal, conflicts, &mut log) {
        Ok(outcome) => {
            // Called for its clauses: each of the form's variables is one that a literal may have.
            let _variables = form.variables();
            let steps = log.take_steps();
            Ok(Searched { outcome, steps })
        }
        Err(SearchError::NoMemory) => Err(NoMemory),
        Err(SearchError::LogFault) => unreachable!(),
    }
}
