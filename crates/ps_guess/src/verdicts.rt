//! The verdict on a problem by turns, as far as time is left.
ghost use Rattle.std.specs.Prelude.{◌<◌, IfOk, IfSome};
ghost use Rattle.ps_generation.specs.Phases.{AreLimits};
ghost use Rattle.ps_guess.specs.Known.{IsFoundOr, IsRunOr};
ghost use Rattle.ps_guess.specs.Solutions.{IsAnsweredVerdict, IsFoundVerdict};
ghost use Rattle.ps_guess.specs.declared.turns.TheConstants.{MOST_TURNS};

use crate::by_turns::turn_of_nothing;
use crate::found::find_model;
use crate::in_time::InTime;
use crate::timed::run_verdict;
use crate::trials::Trials;
use crate::turns::MOST_TURNS;
use crate::watch::{Watch, Work};
use ps_answer::Verdict;
use ps_guesser::Guesser;
use ps_io::{List, NoMemory};
use ps_query::Limits;
use ps_table::Trace;
use std::alloc::Global;

// The verdict that the guesses of a turn show, without events.
#[tactic(auto, using(crate::proofs::Settled::found_consistent, crate::proofs::Settled::found_inconsistent))]
fn guess_verdict<G: Guesser, W: Watch>(
    alloc: Global,
    trials: &Trials<'_>,
    limits: Limits,
    turn: u32,
    timed: &mut InTime<'_, G, W>,
) -> Result<Option<(Verdict, Trace)>, NoMemory>
    requires limits { AreLimits limits }
    requires few { turn < MOST_TURNS }
    ensures { IfOk result (λ o. IfSome o (λ r. IsFoundVerdict trials.now r.0 r.1)) }
{
    timed.allow(turn);
    if let Some(model) = find_model(alloc, trials, timed)? {
        return Ok(Some((Verdict::Consistent(model), List::new(alloc))));
    }
    if let Some(dual) = turn_of_nothing(alloc, trials, None, limits, turn, timed)? {
        return Ok(Some((Verdict::Inconsistent(dual), List::new(alloc))));
    }
    Ok(None)
}

// The verdict of one turn: found, or run where time is left for it.
#[tactic(auto, using(crate::proofs::Untold::refused_there, crate::proofs::Untold::run_or))]
fn turn_of_verdict<G: Guesser, W: Watch>(
    alloc: Global,
    trials: &Trials<'_>,
    limits: Limits,
    turn: u32,
    may_guess: bool,
    timed: &mut InTime<'_, G, W>,
) -> Result<Option<(Verdict, Trace)>, NoMemory>
    requires limits { AreLimits limits }
    requires few { turn < MOST_TURNS }
    ensures told { IfOk result (λ o. IfSome o (λ r. IsAnsweredVerdict limits trials.now r.0 r.1)) }
    ensures untold { IfOk result
        (IsRunOr (W.has_refused timed.new.watch.now) limits turn trials.now) }
{
    if may_guess {
        if let Some(found) = guess_verdict(alloc, trials, limits, turn, timed)? {
            return Ok(Some(found));
        }
    }
    if timed.watch.is_over() || !timed.watch.has_room(Work::Run, turn) {
        return Ok(None);
    }
    run_verdict(alloc, trials, limits, turn, may_guess)
}

/// The verdict on a problem by turns of guesses and runs, each turn twice as long as the one before;
/// none where the watch said before that time is over, or that a run has no room. A run begins with small
/// limits, and is begun again with greater ones as long as it is open and time is left.
#[tactic(auto, using(crate::proofs::Untold::last_refused))]
pub fn verdict_in_time<G: Guesser, W: Watch>(
    alloc: Global,
    trials: &Trials<'_>,
    limits: Limits,
    timed: &mut InTime<'_, G, W>,
) -> Result<Option<(Verdict, Trace)>, NoMemory>
    requires limits { AreLimits limits }
    ensures told { IfOk result (λ o. IfSome o (λ r. IsAnsweredVerdict limits trials.now r.0 r.1)) }
    ensures untold { IfOk result (IsFoundOr (W.has_refused timed.new.watch.now)) }
{
    let mut may_guess = true;
    for turn in 0..MOST_TURNS {
        timed.begin();
        if let Some(found) = turn_of_verdict(alloc, trials, limits, turn, may_guess, timed)? {
            return Ok(Some(found));
        }
        if timed.watch.is_over() {
            return Ok(None);
        }
        may_guess = may_guess && timed.has_stopped();
    }
    Ok(None)
}
