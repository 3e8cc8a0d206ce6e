//! Sentences of a problem that can't be met together, each of which is needed for it.
ghost use Rattle.std.specs.Prelude.{◌≡◌, ◌<◌, true, IfOk, IfSome};
ghost use Rattle.ps_generation.specs.Phases.{AreLimits};
ghost use Rattle.ps_explain.specs.Explanations.{IsRightExplanation};
ghost use Rattle.ps_guess.specs.declared.turns.TheConstants.{MOST_TURNS};
ghost use Rattle.ps_ask.specs.Shown.{AreSettings};
ghost use Rattle.ps_ask.specs.Clashes.{IsCoreFor, IsCoreWithin, IsShownInconsistent};

use crate::settings::Settings;
use ps_answer::Cause;
use ps_explain::{Explained, Numbers, explain};
use ps_guess::{Guesser, InTime, Limits, MOST_TURNS, Watch, Work, are_greatest, limits_at};
use ps_io::NoMemory;
use ps_problem::Problem;
use ps_spoken::out_of_time;
use std::alloc::Global;

/// Sentences that can't be met together, each of which is needed for it; or what stopped the search
/// for them.
#[derive(Drop)]
pub(crate) enum Core {
    /// Their numbers, from 1.
    Found(Numbers),
    Open(Cause),
}

// What an explanation says of sentences that can't be met together, where some can't.
#[tactic(auto, using(crate::proofs::ClashLaws::core_found, crate::proofs::ClashLaws::open_found, crate::proofs::ClashLaws::none_consistent))]
fn core_of(problem: &Problem, limits: Limits, explained: Explained) -> Core
    requires right { IsRightExplanation limits problem.now explained }
    requires inconsistent { IsShownInconsistent problem.now }
    ensures { IsCoreWithin limits problem.now result }
{
    match explained {
        Explained::Core { sentences, .. } => Core::Found(sentences),
        Explained::Open { cause, .. } => Core::Open(cause),
        Explained::Consistent(_) => unreachable!(),
    }
}

// Sentences of an inconsistent problem that can't be met together, within limits.
fn find_core<G: Guesser>(
    alloc: Global,
    problem: &Problem,
    limits: Limits,
    guesser: &mut G,
) -> Result<Core, NoMemory>
    requires limits { AreLimits limits }
    requires inconsistent { IsShownInconsistent problem.now }
    ensures { IfOk result (IsCoreWithin limits problem.now) }
{
    let explained = explain(alloc, problem, limits, guesser)?;
    Ok(core_of(problem, limits, explained))
}

/// The same within the limits of the settings, of which none is on time.
#[tactic(auto, using(crate::proofs::ClashLaws::core_by))]
pub(crate) fn core_at_once<G: Guesser>(
    alloc: Global,
    problem: &Problem,
    settings: Settings,
    guesser: &mut G,
) -> Result<Core, NoMemory>
    requires settings { AreSettings settings }
    requires inconsistent { IsShownInconsistent problem.now }
    ensures { IfOk result (IsCoreFor settings problem.now) }
{
    find_core(alloc, problem, settings.limits, guesser)
}

// The same by a search with the limits of this turn; none where it is open below the greatest ones.
#[tactic(auto, using(crate::proofs::ClashLaws::core_by, crate::proofs::ClashLaws::core_whatever))]
fn core_at<G: Guesser>(
    alloc: Global,
    problem: &Problem,
    settings: Settings,
    turn: u32,
    guesser: &mut G,
) -> Result<Option<Core>, NoMemory>
    requires settings { AreSettings settings }
    requires few { turn < MOST_TURNS }
    requires inconsistent { IsShownInconsistent problem.now }
    ensures { IfOk result (λ o. IfSome o (IsCoreFor settings problem.now)) }
{
    let own = limits_at(settings.limits, turn);
    if are_greatest(own, settings.limits) {
        return Ok(Some(find_core(alloc, problem, settings.limits, guesser)?));
    }
    match find_core(alloc, problem, own, guesser)? {
        Core::Found(numbers) => Ok(Some(Core::Found(numbers))),
        Core::Open(_) => Ok(None),
    }
}

/// The same as far as time is left.
#[tactic(auto, using(crate::proofs::ClashLaws::core_late))]
pub(crate) fn core_in_time<G: Guesser, W: Watch>(
    alloc: Global,
    problem: &Problem,
    settings: Settings,
    timed: &mut InTime<'_, G, W>,
) -> Result<Core, NoMemory>
    requires settings { AreSettings settings }
    requires timed { settings.is_timed ≡ true }
    requires inconsistent { IsShownInconsistent problem.now }
    ensures { IfOk result (IsCoreFor settings problem.now) }
{
    for turn in 0..MOST_TURNS {
        if timed.watch.is_over() || !timed.watch.has_room(Work::Run, turn) {
            return Ok(Core::Open(out_of_time()));
        }
        if let Some(core) = core_at(alloc, problem, settings, turn, timed)? {
            return Ok(core);
        }
    }
    Ok(Core::Open(out_of_time()))
}
