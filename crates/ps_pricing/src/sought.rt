//! A search for the greatest value, with its steps.
ghost use Rattle.std.specs.Prelude.{◌≤◌, IfOk};
ghost use Rattle.ps_log.specs.declared.limits.TheConstants.{MOST_CONFLICTS};
ghost use Rattle.ps_maxsat.specs.Limits.{IsNarrow, IsSoftWithin};
ghost use Rattle.ps_maxsat.specs.Values.{IsPriced};
ghost use Rattle.ps_claims.specs.Printed.{AreOfLiterals};
ghost use Rattle.ps_pricing.specs.Sought.{HasSteps, HasFewSteps};

use ps_io::NoMemory;
use ps_log::HeldLog;
use ps_maxsat::{Priced, Wcnf, best_from};
use ps_pb::{Assignment, Steps};
use ps_sat::SearchError;
use std::alloc::Global;

/// What was found, and the steps of the last search.
#[derive(Drop)]
pub(crate) struct Sought {
    pub(crate) priced: Priced,
    pub(crate) steps: Steps,
}

/// Looks for the greatest value, with the values of the first assignment first.
pub(crate) fn seek(
    alloc: Global,
    wcnf: &Wcnf,
    first: &Assignment,
    conflicts: u64,
) -> Result<Sought, NoMemory>
    requires soft { IsSoftWithin wcnf.now }
    requires sizes { IsNarrow wcnf.now }
    requires few { conflicts ≤ MOST_CONFLICTS }
    ensures priced { IfOk result (λ s. IsPriced wcnf.now conflicts s.priced) }
    ensures steps { IfOk result (λ s. HasSteps wcnf.now conflicts s.priced s.steps) }
    ensures few { IfOk result (λ s. HasFewSteps conflicts s.priced s.steps) }
    ensures literals { IfOk result (λ s. AreOfLiterals s.steps) }
{
    let mut log = HeldLog::new(alloc);
    match best_from(alloc, wcnf, first, conflicts, &mut log) {
        Ok(priced) => {
            // Called for its clauses: each of the form's variables is one that a literal may have.
            let _variables = wcnf.hard.variables();
            let steps = log.take_steps();
            Ok(Sought { priced, steps })
        }
        Err(SearchError::NoMemory) => Err(NoMemory),
        Err(SearchError::LogFault) => unreachable!(),
    }
}
