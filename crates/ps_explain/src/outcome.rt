//! What some of a problem's sentences come to.
ghost use Rattle.std.specs.Prelude.{◌≡◌, true, false, get_or, IfOk};
ghost use Rattle.ps_runs.specs.Kept.{IsChoice};
ghost use Rattle.ps_generation.specs.Phases.{AreLimits};
ghost use Rattle.ps_generation.specs.Runs.{IsAtStart};
ghost use Rattle.ps_explain.specs.Steps.{IsConflict, IsOutcome, IsOutcomeOfRun, IsTried};

use crate::conflict::Conflict;
use crate::explained::Explained;
use crate::found::{find_conflict, find_model, shown_model};
use crate::means::Means;
use crate::met::{Met, take_met};
use crate::numbers::numbers_of;
use crate::used::used_by;
use ps_answer::{Cause, Model};
use ps_generation::{First, Limits, Run};
use ps_guesser::Guesser;
use ps_io::NoMemory;
use ps_problem::Problem;
use ps_table::Trace;
use std::alloc::Global;

/// What kept sentences come to.
#[derive(Drop)]
pub(crate) enum Outcome {
    /// A distribution meets them.
    Met(Model),
    /// Some of them can't be met together.
    NotMet(Conflict),
    /// A limit was reached in the run over them, which the cause tells, with the run's events.
    Open { cause: Cause, first: Trace },
}

/// What the kept sentences without one of them come to.
#[derive(Drop)]
pub(crate) enum Tried {
    /// The sentence is needed: a distribution meets the others.
    Needed(Model),
    /// Some of the others can't be met together.
    Left(Conflict),
    /// A limit was reached.
    Open(Explained),
}

/// What a run at its start comes to.
fn outcome_of(alloc: Global, problem: &Problem, run: &mut Run<'_>) -> Result<Outcome, NoMemory>
    requires start { IsAtStart run.old }
    ensures { IfOk result (IsOutcomeOfRun problem.now run.old) }
{
    match run.phase_one()? {
        First::Reached(model) => Ok(Outcome::Met(model)),
        First::Nothing(dual) => Ok(Outcome::NotMet(Conflict {
            kept: used_by(alloc, problem.sentences().as_slice(), dual.rows.as_slice())?,
            dual,
        })),
        First::Open(cause) => Ok(Outcome::Open {
            cause,
            first: run.take_trace(),
        }),
    }
}

/// What the run over the kept sentences comes to.
fn run_over(
    alloc: Global,
    problem: &Problem,
    kept: &[bool],
    limits: Limits,
) -> Result<Outcome, NoMemory>
    requires kept { IsChoice kept.now problem.now }
    requires limits { AreLimits limits }
    ensures { IfOk result (IsOutcome limits problem.now kept.now) }
{
    let mut run = Run::new(alloc, problem, kept, None, limits)?;
    outcome_of(alloc, problem, &mut run)
}

/// What the kept sentences come to: it is guessed, and where no guess is shown, a run tells it.
#[tactic(auto, using(crate::proofs::Guessed::found_met))]
pub(crate) fn outcome_over<G: Guesser>(
    alloc: Global,
    means: &Means<'_, '_>,
    kept: &[bool],
    guesser: &mut G,
) -> Result<Outcome, NoMemory>
    requires kept { IsChoice kept.now means.now.trials.now }
    requires limits { AreLimits means.now.limits }
    ensures { IfOk result (IsOutcome means.now.limits means.now.trials.now kept.now) }
{
    let problem = means.trials.problem();
    guesser.keep(problem, kept)?;
    if let Some(model) = find_model(alloc, means.trials, kept, guesser)? {
        return Ok(Outcome::Met(model));
    }
    if let Some(conflict) = find_conflict(alloc, means.trials, kept, guesser)? {
        return Ok(Outcome::NotMet(conflict));
    }
    run_over(alloc, problem, kept, means.limits)
}

/// What the sentences of a conflict but for the one at a place come to. A distribution that was
/// found before is tried first.
#[tactic(auto, using(crate::proofs::Needed::choice_without, crate::proofs::Guessed::found_needed))]
pub(crate) fn outcome_without<G: Guesser>(
    alloc: Global,
    means: &Means<'_, '_>,
    conflict: &Conflict,
    place: usize,
    guesser: &mut G,
    met: &mut Met,
) -> Result<Tried, NoMemory>
    requires conflict { IsConflict means.now.trials.now conflict.now }
    requires kept { get_or conflict.now.kept place false ≡ true }
    requires limits { AreLimits means.now.limits }
    ensures { IfOk result (IsTried means.now.limits means.now.trials.now conflict.now.kept place) }
{
    // It has the clause that the problem is within the limits.
    let problem = means.trials.problem();
    let mut others = Vec::from_slice(alloc, conflict.kept.as_slice())?;
    others[place] = false;
    let before = take_met(met, place);
    if let Some(model) = shown_model(alloc, means.trials, others.as_slice(), before)? {
        return Ok(Tried::Needed(model));
    }
    match outcome_over(alloc, means, others.as_slice(), guesser)? {
        Outcome::Met(model) => Ok(Tried::Needed(model)),
        Outcome::NotMet(smaller) => Ok(Tried::Left(smaller)),
        Outcome::Open { cause, first } => Ok(Tried::Open(Explained::Open {
            sentences: numbers_of(alloc, problem, others.as_slice())?,
            cause,
            first,
        })),
    }
}
