//! Runs over all sentences of a problem.
ghost use Rattle.std.specs.Prelude.{IfOk, IfSome};
ghost use Rattle.ps_problem.specs.Problems.{HasNodes};
ghost use Rattle.ps_runs.specs.Kept.{AreAllKept, IsChoice};
ghost use Rattle.ps_generation.specs.Phases.{AreLimits};
ghost use Rattle.ps_query.specs.Parts.{IsNewOverAll};

use ps_generation::{Limits, Run};
use ps_io::{List, NoMemory};
use ps_problem::{Problem, Query};
use std::alloc::Global;

/// Each sentence is kept.
fn all_kept(alloc: Global, problem: &Problem) -> Result<List<bool>, NoMemory>
    ensures each { IfOk result (λ kept. IsChoice kept problem.now) }
    ensures all { IfOk result AreAllKept }
{
    let mut kept = List::new(alloc);
    for _ in 0..problem.sentences().len() {
        kept.push(true)?;
    }
    Ok(kept)
}

/// A run at its start, over all sentences of a problem, and for a query or none.
pub(crate) fn run_over_all<'p>(
    alloc: Global,
    problem: &'p Problem,
    query: Option<Query>,
    limits: Limits,
) -> Result<Run<'p>, NoMemory>
    requires query { IfSome query
        (λ q. HasNodes problem.now.nodes q.formula q.given q.both) }
    requires limits { AreLimits limits }
    ensures { IfOk result (IsNewOverAll problem.now query limits) }
{
    let kept = all_kept(alloc, problem)?;
    Run::new(alloc, problem, kept.as_slice(), query, limits)
}
