//! Which sentences of a problem clash, and what is left without each of them.
ghost use Rattle.std.specs.Prelude.{◌≡◌, ◌<◌, true, All, IfOk, IfSome, map};
ghost use Rattle.ps_valid.specs.Answers.{IsRightOf};
ghost use Rattle.ps_guess.specs.declared.turns.TheConstants.{MOST_TURNS};
ghost use Rattle.ps_ask.specs.Shown.{AreSettings};
ghost use Rattle.ps_ask.specs.Clashes.{IsClashAt, IsCoreFor, IsFoundClash, IsRestFor, IsRestOf};
ghost use Rattle.ps_ask.specs.Clashes.{IsShownInconsistent, number_of};

use crate::company::{Company, ROUNDS};
use crate::cores::{Core, core_at_once, core_in_time};
use crate::settings::Settings;
use crate::sought::Sought;
use ps_answer::{Answer, Verdict};
use ps_engine::Engine;
use ps_explain::verdict_without;
use ps_guess::{Guesser, InTime, MOST_TURNS, Watch, Work, are_greatest, limits_at};
use ps_io::{List, NoMemory};
use ps_problem::Problem;
use ps_spoken::{Clash, Clashing, out_of_time};
use std::alloc::Global;

// What the problem comes to without a sentence, by a run with the limits of this turn; none where it
// is open below the greatest ones.
#[tactic(auto, using(crate::proofs::ClashLaws::rest_by, crate::proofs::ClashLaws::rest_met, crate::proofs::ClashLaws::rest_not_met))]
fn rest_at<G: Guesser>(
    alloc: Global,
    problem: &Problem,
    settings: Settings,
    number: u32,
    turn: u32,
    guesser: &mut G,
) -> Result<Option<Verdict>, NoMemory>
    requires settings { AreSettings settings }
    requires few { turn < MOST_TURNS }
    ensures { IfOk result (λ o. IfSome o (IsRestOf settings problem.now number)) }
{
    let own = limits_at(settings.limits, turn);
    if are_greatest(own, settings.limits) {
        let rest = verdict_without(alloc, problem, settings.limits, number, guesser)?;
        return Ok(Some(rest));
    }
    match verdict_without(alloc, problem, own, number, guesser)? {
        Verdict::Consistent(model) => Ok(Some(Verdict::Consistent(model))),
        Verdict::Inconsistent(dual) => Ok(Some(Verdict::Inconsistent(dual))),
        Verdict::Open(_) => Ok(None),
    }
}

// The same as far as time is left.
#[tactic(auto, using(crate::proofs::ClashLaws::rest_late))]
fn rest_in_time<G: Guesser, W: Watch>(
    alloc: Global,
    problem: &Problem,
    settings: Settings,
    number: u32,
    timed: &mut InTime<'_, G, W>,
) -> Result<Verdict, NoMemory>
    requires settings { AreSettings settings }
    requires timed { settings.is_timed ≡ true }
    ensures { IfOk result (IsRestOf settings problem.now number) }
{
    for turn in 0..MOST_TURNS {
        if timed.watch.is_over() || !timed.watch.has_room(Work::Run, turn) {
            return Ok(Verdict::Open(out_of_time()));
        }
        if let Some(rest) = rest_at(alloc, problem, settings, number, turn, timed)? {
            return Ok(rest);
        }
    }
    Ok(Verdict::Open(out_of_time()))
}

// What the problem comes to without a sentence.
#[tactic(auto, using(crate::proofs::ClashLaws::rest_by))]
fn rest_of<G: Guesser, W: Watch>(
    alloc: Global,
    problem: &Problem,
    settings: Settings,
    number: u32,
    timed: &mut InTime<'_, G, W>,
) -> Result<Verdict, NoMemory>
    requires settings { AreSettings settings }
    ensures { IfOk result (IsRestOf settings problem.now number) }
{
    if settings.is_timed {
        return rest_in_time(alloc, problem, settings, number, timed);
    }
    verdict_without(alloc, problem, settings.limits, number, timed)
}

// These sentences, each with what the problem comes to without it.
fn with_rests<G: Guesser, W: Watch>(
    alloc: Global,
    problem: &Problem,
    settings: Settings,
    numbers: &[u32],
    timed: &mut InTime<'_, G, W>,
) -> Result<List<Clashing>, NoMemory>
    requires settings { AreSettings settings }
    ensures numbers { IfOk result (λ clashing. map number_of clashing ≡ numbers.now) }
    ensures rests { IfOk result (All (IsRestFor settings problem.now)) }
{
    let mut clashing = List::new(alloc);
    for number in numbers {
        let number = *number;
        let rest = rest_of(alloc, problem, settings, number, timed)?;
        clashing.push(Clashing { number, rest })?;
    }
    Ok(clashing)
}

// The clash of sentences that can't be met together, or what stopped the search for it.
#[tactic(auto, using(crate::proofs::ClashLaws::clash_found, crate::proofs::ClashLaws::clash_open))]
fn clash_of<G: Guesser, W: Watch>(
    alloc: Global,
    problem: &Problem,
    settings: Settings,
    core: Core,
    timed: &mut InTime<'_, G, W>,
) -> Result<Clash, NoMemory>
    requires settings { AreSettings settings }
    requires core { IsCoreFor settings problem.now core }
    ensures { IfOk result (IsFoundClash settings problem.now) }
{
    match core {
        Core::Found(numbers) => {
            let numbers = numbers.as_slice();
            let clashing = with_rests(alloc, problem, settings, numbers, timed)?;
            Ok(Clash::Irreducible(clashing))
        }
        Core::Open(cause) => Ok(Clash::Open(cause)),
    }
}

// Which sentences of an inconsistent problem clash.
fn clash_for<W: Company>(
    alloc: Global,
    problem: &Problem,
    settings: Settings,
    watch: &mut W,
) -> Result<Clash, NoMemory>
    requires settings { AreSettings settings }
    requires inconsistent { IsShownInconsistent problem.now }
    ensures { IfOk result (IsFoundClash settings problem.now) }
{
    let mut engine = Engine::new(alloc, problem)?;
    engine.pause_every(ROUNDS);
    watch.turn_to(Sought::Clash);
    let mut timed = InTime::new(&mut engine, watch);
    if !settings.is_timed {
        let core = core_at_once(alloc, problem, settings, &mut timed)?;
        return clash_of(alloc, problem, settings, core, &mut timed);
    }
    let core = core_in_time(alloc, problem, settings, &mut timed)?;
    clash_of(alloc, problem, settings, core, &mut timed)
}

/// Which sentences of a problem clash, where the answer to it is that they are inconsistent: some
/// that can't be met together, each of which is needed for it, with what the problem comes to
/// without it; or what stopped the search for them.
#[tactic(auto, using(crate::proofs::ClashLaws::inconsistent_is, crate::proofs::ClashLaws::clash_at, crate::proofs::ClashLaws::no_clash_consistent, crate::proofs::ClashLaws::no_clash_open))]
pub fn clash_in<W: Company>(
    alloc: Global,
    problem: &Problem,
    settings: Settings,
    answer: &Answer,
    watch: &mut W,
) -> Result<Option<Clash>, NoMemory>
    requires settings { AreSettings settings }
    requires right { IsRightOf problem.now answer.now }
    ensures { IfOk result (IsClashAt settings problem.now answer.now.verdict) }
{
    match &answer.verdict {
        Verdict::Inconsistent(_) => Ok(Some(clash_for(alloc, problem, settings, watch)?)),
        Verdict::Open(_) | Verdict::Consistent(_) => Ok(None),
    }
}
