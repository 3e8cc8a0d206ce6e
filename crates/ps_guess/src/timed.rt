//! The verdict on a problem and the answer to a query by turns, as far as time is left.
ghost use Rattle.std.specs.Prelude.{◌<◌, ◌+◌, ◌≡◌, IfOk, IfSome, IsSome};
ghost use Rattle.ps_problem.specs.Problems.{HasNodes};
ghost use Rattle.ps_claims.specs.declared.claim_kind.ClaimKind.TheVariants.{Lower, Upper};
ghost use Rattle.ps_guess.specs.Trials.{IsFoundSide};
ghost use Rattle.ps_generation.specs.Phases.{AreLimits};
ghost use Rattle.ps_guess.specs.Solutions.{IsAnsweredVerdict};
ghost use Rattle.ps_guess.specs.Known.{HasAnswer, IsKnown, KeepsKnown, KeepsSides, TakesTurn};
ghost use Rattle.ps_guess.specs.Known.{TakesVerdict};
ghost use Rattle.ps_guess.specs.declared.turns.TheConstants.{MOST_TURNS};

use crate::answering::run_beside;
use crate::by_turns::Pending;
use crate::known::{Known, known_behind};
use crate::trials::Trials;
use crate::turns::{are_greatest, limits_at};
use ps_answer::{Cause, QueryAnswer, SideAnswer, Verdict};
use ps_io::{List, NoMemory};
use ps_problem::Query;
use ps_query::{Limits, query_part, verdict_part};
use ps_table::Trace;
use std::alloc::Global;

// Whether a run ended at a number that is too wide: greater limits don't lead it further.
fn is_wide(cause: &Cause) -> bool {
    matches!(cause, Cause::Wide { .. })
}

// Whether each side that a run left open ended so.
fn are_wide(lower: &SideAnswer, upper: &SideAnswer) -> bool {
    match (lower, upper) {
        (SideAnswer::Open(below), SideAnswer::Open(above)) => is_wide(below) && is_wide(above),
        (SideAnswer::Open(cause), SideAnswer::Bound { .. }) => is_wide(cause),
        (SideAnswer::Bound { .. }, SideAnswer::Open(cause)) => is_wide(cause),
        (SideAnswer::Bound { .. }, SideAnswer::Bound { .. }) => false,
    }
}

// Whether a run is open, and greater limits don't lead it further.
fn is_at_its_end(answer: &QueryAnswer) -> bool {
    match answer {
        QueryAnswer::Bounds { lower, upper, .. } => are_wide(lower, upper),
        QueryAnswer::Impossible(_) => false,
        QueryAnswer::Open(cause) => is_wide(cause),
    }
}

// What is known of a query behind a run with the limits of this turn. Where guesses are at their end,
// and greater limits don't help, the run has the greatest ones.
fn known_at(
    alloc: Global,
    trials: &Trials<'_>,
    query: Query,
    limits: Limits,
    turn: u32,
    may_guess: bool,
    lower: Option<SideAnswer>,
    upper: Option<SideAnswer>,
) -> Result<Known, NoMemory>
    requires query { HasNodes trials.now.nodes query.formula query.given query.both }
    requires limits { AreLimits limits }
    requires few { turn < MOST_TURNS }
    requires lower { IfSome lower (IsFoundSide trials.now Lower query) }
    requires upper { IfSome upper (IsFoundSide trials.now Upper query) }
    ensures known { IfOk result (IsKnown limits trials.now query) }
    ensures kept { IfOk result (KeepsSides lower upper) }
    ensures taken { IfOk result (TakesTurn limits turn trials.now query) }
    ensures last { turn + 1 ≡ MOST_TURNS → IfOk result HasAnswer }
{
    let own = limits_at(limits, turn);
    if are_greatest(own, limits) {
        let part = run_beside(alloc, trials, query, limits, lower, upper)?;
        return Ok(Known::Answered(part));
    }
    let run = query_part(alloc, trials.problem(), query, own)?;
    if !may_guess && is_at_its_end(&run.answer) {
        let part = run_beside(alloc, trials, query, limits, lower, upper)?;
        return Ok(Known::Answered(part));
    }
    Ok(known_behind(alloc, run, lower, upper))
}

/// What is known of a query behind the run of one more turn: of the run that has the greatest limits
/// comes an answer. Where guesses are at their end, so does one of a run that ended at a number which
/// is too wide.
#[tactic(auto, using(crate::proofs::KnownLaws::keeps_known))]
pub fn run_turn(
    alloc: Global,
    trials: &Trials<'_>,
    query: Query,
    limits: Limits,
    turn: u32,
    pending: Pending,
) -> Result<Pending, NoMemory>
    requires query { HasNodes trials.now.nodes query.formula query.given query.both }
    requires limits { AreLimits limits }
    requires few { turn < MOST_TURNS }
    requires known { IsKnown limits trials.now query pending.known }
    ensures known { IfOk result (λ it. IsKnown limits trials.now query it.known) }
    ensures kept { IfOk result (λ it. KeepsKnown pending.known it.known) }
    ensures taken { IfOk result (λ it. TakesTurn limits turn trials.now query it.known) }
    ensures last { turn + 1 ≡ MOST_TURNS → IfOk result (λ it. HasAnswer it.known) }
{
    let Pending { known, may_guess } = pending;
    match known {
        Known::Answered(part) => Ok(Pending {
            known: Known::Answered(part),
            may_guess,
        }),
        Known::Sides { lower, upper } => {
            let known = known_at(alloc, trials, query, limits, turn, may_guess, lower, upper)?;
            Ok(Pending { known, may_guess })
        }
    }
}

/// The verdict of a run with the limits of this turn; none where it is open below the greatest ones.
/// Where guesses are at their end, and greater limits don't help, the run has the greatest ones.
pub(crate) fn run_verdict(
    alloc: Global,
    trials: &Trials<'_>,
    limits: Limits,
    turn: u32,
    may_guess: bool,
) -> Result<Option<(Verdict, Trace)>, NoMemory>
    requires limits { AreLimits limits }
    requires few { turn < MOST_TURNS }
    ensures told { IfOk result (λ o. IfSome o (λ r. IsAnsweredVerdict limits trials.now r.0 r.1)) }
    ensures taken { IfOk result (TakesVerdict limits turn trials.now) }
    ensures last { turn + 1 ≡ MOST_TURNS → IfOk result IsSome }
{
    let own = limits_at(limits, turn);
    if are_greatest(own, limits) {
        return Ok(Some(verdict_part(alloc, trials.problem(), limits)?));
    }
    let (verdict, _) = verdict_part(alloc, trials.problem(), own)?;
    match verdict {
        Verdict::Consistent(model) => { Ok(Some((Verdict::Consistent(model), List::new(alloc)))) }
        Verdict::Inconsistent(dual) => { Ok(Some((Verdict::Inconsistent(dual), List::new(alloc)))) }
        Verdict::Open(Cause::Wide { .. }) if !may_guess => {
            Ok(Some(verdict_part(alloc, trials.problem(), limits)?))
        }
        Verdict::Open(_) => Ok(None),
    }
}
