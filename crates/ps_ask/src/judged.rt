//! What is shown of a problem's sentences and of its queries.
ghost use Rattle.std.specs.Prelude.{◌≡◌, true, IfOk};
ghost use Rattle.ps_problem.specs.Problems.{HasNodes};
ghost use Rattle.ps_guess.specs.Known.{IsKnown, ShowsKnown};
ghost use Rattle.ps_guess.specs.Solutions.{IsAnsweredPart, IsAnsweredVerdict};
ghost use Rattle.ps_ask.specs.Shown.{AreSettings};
ghost use Rattle.ps_ask.specs.Fronts.{IsShownPart, IsShownVerdict};
ghost use Rattle.ps_ask.specs.Rounds.{IsPending};

use crate::late::late_part;
use crate::settings::Settings;
use ps_answer::{QueryPart, Verdict};
use ps_engine::Engine;
use ps_guess::{InTime, Known, Pending, Trials, Watch, last_verdict, run_beside, verdict_in_time};
use ps_io::{List, NoMemory};
use ps_problem::Query;
use ps_spoken::out_of_time;
use ps_table::Trace;
use std::alloc::Global;

// The verdict as far as time is left: open where it was over before.
#[tactic(auto, using(crate::proofs::JudgedLaws::shown_verdict, crate::proofs::JudgedLaws::late_verdict))]
fn verdict_within<W: Watch>(
    alloc: Global,
    settings: Settings,
    trials: &Trials<'_>,
    timed: &mut InTime<'_, Engine, W>,
) -> Result<(Verdict, Trace), NoMemory>
    requires settings { AreSettings settings }
    requires timed { settings.is_timed ≡ true }
    ensures { IfOk result (λ r. IsShownVerdict settings trials.now r.0 r.1) }
{
    // Called for its clause: the problem is in order.
    let _sound = trials.problem();
    match verdict_in_time(alloc, trials, settings.limits, timed)? {
        Some(found) => Ok(found),
        None => Ok((Verdict::Open(out_of_time()), List::new(alloc))),
    }
}

// The verdict without a limit of time: by a last run where no turn told it.
fn whole_verdict<W: Watch>(
    alloc: Global,
    settings: Settings,
    trials: &Trials<'_>,
    timed: &mut InTime<'_, Engine, W>,
) -> Result<(Verdict, Trace), NoMemory>
    requires settings { AreSettings settings }
    ensures { IfOk result (λ r. IsAnsweredVerdict settings.limits trials.now r.0 r.1) }
{
    match verdict_in_time(alloc, trials, settings.limits, timed)? {
        Some(found) => Ok(found),
        None => last_verdict(alloc, trials, settings.limits),
    }
}

/// The verdict on the problem of trials, with the events of its run, by turns of guesses and runs;
/// where time was over before, it is open.
#[tactic(auto, using(crate::proofs::JudgedLaws::shown_verdict))]
pub fn judged_verdict<W: Watch>(
    alloc: Global,
    settings: Settings,
    trials: &Trials<'_>,
    timed: &mut InTime<'_, Engine, W>,
) -> Result<(Verdict, Trace), NoMemory>
    requires settings { AreSettings settings }
    ensures { IfOk result (λ r. IsShownVerdict settings trials.now r.0 r.1) }
{
    // Called for its clause: the problem is in order.
    let _sound = trials.problem();
    if settings.is_timed {
        return verdict_within(alloc, settings, trials, timed);
    }
    whole_verdict(alloc, settings, trials, timed)
}

// The part of a query of which this is known where time was over: without an answer it has the sides
// that were found.
#[tactic(auto, using(crate::proofs::JudgedLaws::shown_part, crate::proofs::JudgedLaws::late_part))]
fn part_within(
    alloc: Global,
    settings: Settings,
    trials: &Trials<'_>,
    query: Query,
    known: Known,
) -> QueryPart
    requires settings { AreSettings settings }
    requires timed { settings.is_timed ≡ true }
    requires query { HasNodes trials.now.nodes query.formula query.given query.both }
    requires known { IsKnown settings.limits trials.now query known }
    ensures part { IsShownPart settings trials.now query result }
    ensures kept { ShowsKnown known result }
{
    // Called for its clause: the problem is in order.
    let _sound = trials.problem();
    match known {
        Known::Answered(part) => part,
        Known::Sides { lower, upper } => late_part(alloc, lower, upper),
    }
}

// The part of a query of which this is known, without a limit of time: by a run beside the sides that
// were found where the answer isn't known.
fn whole_part(
    alloc: Global,
    settings: Settings,
    trials: &Trials<'_>,
    query: Query,
    known: Known,
) -> Result<QueryPart, NoMemory>
    requires settings { AreSettings settings }
    requires query { HasNodes trials.now.nodes query.formula query.given query.both }
    requires known { IsKnown settings.limits trials.now query known }
    ensures part { IfOk result (IsAnsweredPart settings.limits trials.now query) }
    ensures kept { IfOk result (ShowsKnown known) }
{
    match known {
        Known::Answered(part) => Ok(part),
        Known::Sides { lower, upper } => {
            run_beside(alloc, trials, query, settings.limits, lower, upper)
        }
    }
}

/// The part of a query of the problem of trials, of which this is known at the end of all turns: where
/// time was over, with the sides that were found, and else by a run beside them. Nothing that is known
/// is lost.
#[tactic(auto, using(crate::proofs::JudgedLaws::shown_part))]
pub fn judged_part(
    alloc: Global,
    settings: Settings,
    trials: &Trials<'_>,
    query: Query,
    pending: Pending,
) -> Result<QueryPart, NoMemory>
    requires settings { AreSettings settings }
    requires query { HasNodes trials.now.nodes query.formula query.given query.both }
    requires pending { IsPending settings trials.now query pending }
    ensures part { IfOk result (IsShownPart settings trials.now query) }
    ensures kept { IfOk result (ShowsKnown pending.known) }
{
    // Called for its clause: the problem is in order.
    let _sound = trials.problem();
    let Pending { known, .. } = pending;
    if settings.is_timed {
        return Ok(part_within(alloc, settings, trials, query, known));
    }
    whole_part(alloc, settings, trials, query, known)
}
