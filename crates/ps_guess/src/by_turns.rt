//! Guesses of a query by turns: in each turn the guesser is asked twice as often as in the one before.
ghost use Rattle.std.specs.Prelude.{◌≡◌, ◌<◌, None, Some, IfOk, IfSome};
ghost use Rattle.ps_claims.specs.declared.claim_kind.ClaimKind.TheVariants.{Lower, Upper};
ghost use Rattle.ps_generation.specs.Phases.{AreLimits};
ghost use Rattle.ps_problem.specs.Problems.{HasNodes};
ghost use Rattle.ps_guess.specs.Trials.{IsFoundDual, IsFoundSide};
ghost use Rattle.ps_guess.specs.Known.{IsFoundKnown, IsKnown, KeepsKnown, KeepsSide, KeepsSides};
ghost use Rattle.ps_guess.specs.declared.known.Known.TheVariants as known;
ghost use Rattle.ps_guess.specs.declared.turns.TheConstants.{MOST_TURNS};

use crate::beside::found_impossible;
use crate::found::{try_nothing, try_side};
use crate::in_time::InTime;
use crate::known::{Known, known_by};
use crate::trial::Trial;
use crate::trials::Trials;
use crate::turns::{MOST_TURNS, tried_at};
use crate::watch::Watch;
use ps_answer::{Dual, SideAnswer};
use ps_claims::ClaimKind;
use ps_guesser::Guesser;
use ps_io::NoMemory;
use ps_problem::Query;
use ps_query::Limits;
use std::alloc::Global;

/// What is known of a query so far, between turns.
#[derive(Drop)]
pub struct Pending {
    /// What is known.
    pub known: Known,
    /// Whether guesses may still come to something: some had to stop before their end.
    pub may_guess: bool,
}

impl Pending {
    /// Nothing is known, and nothing was guessed.
    pub fn new() -> Pending
        ensures { result.known ≡ known.Sides None None }
    {
        Pending {
            known: Known::Sides {
                lower: None,
                upper: None,
            },
            may_guess: true,
        }
    }

    /// Whether the answer is known.
    pub fn is_answered(&self) -> bool {
        matches!(self.known, Known::Answered(_))
    }
}

/// A dual that excludes the query's evidence, or without a query each distribution, where this turn
/// finds one.
pub(crate) fn turn_of_nothing<G: Guesser, W: Watch>(
    alloc: Global,
    trials: &Trials<'_>,
    query: Option<Query>,
    limits: Limits,
    turn: u32,
    timed: &mut InTime<'_, G, W>,
) -> Result<Option<Dual>, NoMemory>
    requires query { IfSome query (λ q. HasNodes trials.now.nodes q.formula q.given q.both) }
    requires limits { AreLimits limits }
    requires few { turn < MOST_TURNS }
    ensures { IfOk result (λ o. IfSome o (IsFoundDual trials.now query)) }
{
    let conflicts = tried_at(limits, turn);
    timed.allow(turn);
    match try_nothing(alloc, trials, query, conflicts, timed)? {
        Some(Trial::Shown(dual)) => Ok(Some(dual)),
        Some(Trial::Spent) if conflicts < limits.conflicts => {
            timed.stop();
            Ok(None)
        }
        _ => Ok(None),
    }
}

/// A dual that excludes the query's evidence, where guesses by turns find one as far as time is left.
pub fn nothing_in_time<G: Guesser, W: Watch>(
    alloc: Global,
    trials: &Trials<'_>,
    query: Query,
    limits: Limits,
    timed: &mut InTime<'_, G, W>,
) -> Result<Option<Dual>, NoMemory>
    requires query { HasNodes trials.now.nodes query.formula query.given query.both }
    requires limits { AreLimits limits }
    ensures { IfOk result (λ o. IfSome o (IsFoundDual trials.now (Some query))) }
{
    for turn in 0..MOST_TURNS {
        timed.begin();
        if let Some(dual) = turn_of_nothing(alloc, trials, Some(query), limits, turn, timed)? {
            return Ok(Some(dual));
        }
        if timed.watch.is_over() || !timed.has_stopped() {
            return Ok(None);
        }
    }
    Ok(None)
}

// The side that was found before, or else where this turn finds one.
fn turn_of_side<G: Guesser, W: Watch>(
    alloc: Global,
    trials: &Trials<'_>,
    kind: ClaimKind,
    query: Query,
    limits: Limits,
    turn: u32,
    found: Option<SideAnswer>,
    timed: &mut InTime<'_, G, W>,
) -> Result<Option<SideAnswer>, NoMemory>
    requires query { HasNodes trials.now.nodes query.formula query.given query.both }
    requires limits { AreLimits limits }
    requires few { turn < MOST_TURNS }
    requires found { IfSome found (IsFoundSide trials.now kind query) }
    ensures side { IfOk result (λ o. IfSome o (IsFoundSide trials.now kind query)) }
    ensures kept { IfOk result (KeepsSide found) }
{
    if let Some(side) = found {
        return Ok(Some(side));
    }
    let conflicts = tried_at(limits, turn);
    timed.allow(turn);
    match try_side(alloc, trials, kind, query, conflicts, timed)? {
        Some(Trial::Shown(side)) => Ok(Some(side)),
        Some(Trial::Spent) if conflicts < limits.conflicts => {
            timed.stop();
            Ok(None)
        }
        _ => Ok(None),
    }
}

// What is known behind the guesses of a turn, beside the sides that were found before.
fn turn_of_sides<G: Guesser, W: Watch>(
    alloc: Global,
    trials: &Trials<'_>,
    query: Query,
    limits: Limits,
    turn: u32,
    lower: Option<SideAnswer>,
    upper: Option<SideAnswer>,
    timed: &mut InTime<'_, G, W>,
) -> Result<Known, NoMemory>
    requires query { HasNodes trials.now.nodes query.formula query.given query.both }
    requires limits { AreLimits limits }
    requires few { turn < MOST_TURNS }
    requires lower { IfSome lower (IsFoundSide trials.now Lower query) }
    requires upper { IfSome upper (IsFoundSide trials.now Upper query) }
    ensures known { IfOk result (IsFoundKnown trials.now query) }
    ensures kept { IfOk result (KeepsSides lower upper) }
{
    if let Some(dual) = turn_of_nothing(alloc, trials, Some(query), limits, turn, timed)? {
        return Ok(Known::Answered(found_impossible(alloc, dual)));
    }
    let least = turn_of_side(
        alloc,
        trials,
        ClaimKind::Lower,
        query,
        limits,
        turn,
        lower,
        timed,
    )?;
    let most = turn_of_side(
        alloc,
        trials,
        ClaimKind::Upper,
        query,
        limits,
        turn,
        upper,
        timed,
    )?;
    Ok(known_by(alloc, least, most))
}

/// What is known of a query behind the guesses of one more turn, as far as time is left. For each
/// side, and for whether the evidence is possible, the guesser is asked 16 times in the first turn,
/// and in each further turn twice as often; a guess that pauses goes on where the guesser is asked
/// again. The search that tries a guess learns 512 clauses at most, and then twice as many likewise.
pub fn guess_turn<G: Guesser, W: Watch>(
    alloc: Global,
    trials: &Trials<'_>,
    query: Query,
    limits: Limits,
    turn: u32,
    pending: Pending,
    timed: &mut InTime<'_, G, W>,
) -> Result<Pending, NoMemory>
    requires query { HasNodes trials.now.nodes query.formula query.given query.both }
    requires limits { AreLimits limits }
    requires few { turn < MOST_TURNS }
    requires known { IsKnown limits trials.now query pending.known }
    ensures known { IfOk result (λ it. IsKnown limits trials.now query it.known) }
    ensures kept { IfOk result (λ it. KeepsKnown pending.known it.known) }
{
    let Pending { known, may_guess } = pending;
    match known {
        Known::Sides { lower, upper } if may_guess => {
            timed.begin();
            let known = turn_of_sides(alloc, trials, query, limits, turn, lower, upper, timed)?;
            Ok(Pending {
                known,
                may_guess: timed.has_stopped(),
            })
        }
        known => Ok(Pending { known, may_guess }),
    }
}
