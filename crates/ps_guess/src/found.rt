//! What is found by guesses.
ghost use Rattle.std.specs.Prelude.{◌≤◌, IfOk, IfSome};
ghost use Rattle.ps_log.specs.declared.limits.TheConstants.{MOST_CONFLICTS};
ghost use Rattle.ps_problem.specs.Problems.{HasNodes};
ghost use Rattle.ps_guess.specs.Trials.{IsFoundDual, IsFoundModel, IsFoundSide, IsTrialOf};

use crate::trial::Trial;
use crate::trials::Trials;
use ps_answer::{Dual, Model, SideAnswer};
use ps_claims::ClaimKind;
use ps_guesser::{Guess, Guesser};
use ps_io::NoMemory;
use ps_problem::Query;
use std::alloc::Global;

/// How often a part is guessed at most. Each guess but the last adds a world.
const MOST_GUESSES: u32 = 1_000_000;

/// A distribution that is found.
pub fn find_model<G: Guesser>(
    alloc: Global,
    trials: &Trials<'_>,
    guesser: &mut G,
) -> Result<Option<Model>, NoMemory>
    ensures { IfOk result (λ o. IfSome o (IsFoundModel trials.now)) }
{
    let Some(model) = guesser.model(trials.problem())? else {
        return Ok(None);
    };
    match trials.model(alloc, model)? {
        Trial::Shown(model) => Ok(Some(model)),
        _ => Ok(None),
    }
}

/// What the last trial of duals ends with that may exclude the query's evidence, or without a query
/// each distribution, by searches that learn at most so many clauses; none where there is no guess.
pub(crate) fn try_nothing<G: Guesser>(
    alloc: Global,
    trials: &Trials<'_>,
    query: Option<Query>,
    conflicts: u64,
    guesser: &mut G,
) -> Result<Option<Trial<Dual>>, NoMemory>
    requires query { IfSome query (λ q. HasNodes trials.now.nodes q.formula q.given q.both) }
    requires few { conflicts ≤ MOST_CONFLICTS }
    ensures { IfOk result (λ o. IfSome o (IsTrialOf (IsFoundDual trials.now query))) }
{
    for _ in 0..MOST_GUESSES {
        let Some(dual) = guesser.nothing(trials.problem(), query)? else {
            return Ok(None);
        };
        match trials.nothing(alloc, query, dual, conflicts)? {
            Trial::Found(world) => guesser.add(world)?,
            end => return Ok(Some(end)),
        }
    }
    Ok(None)
}

/// A dual that is found to exclude the query's evidence, or without a query each distribution.
pub fn find_nothing<G: Guesser>(
    alloc: Global,
    trials: &Trials<'_>,
    query: Option<Query>,
    guesser: &mut G,
) -> Result<Option<Dual>, NoMemory>
    requires query { IfSome query (λ q. HasNodes trials.now.nodes q.formula q.given q.both) }
    ensures { IfOk result (λ o. IfSome o (IsFoundDual trials.now query)) }
{
    match try_nothing(alloc, trials, query, trials.conflicts(), guesser)? {
        Some(Trial::Shown(dual)) => Ok(Some(dual)),
        _ => Ok(None),
    }
}

/// What the last trial of guesses of a side ends with, by searches that learn at most so many
/// clauses; none where there is no guess.
pub(crate) fn try_side<G: Guesser>(
    alloc: Global,
    trials: &Trials<'_>,
    kind: ClaimKind,
    query: Query,
    conflicts: u64,
    guesser: &mut G,
) -> Result<Option<Trial<SideAnswer>>, NoMemory>
    requires query { HasNodes trials.now.nodes query.formula query.given query.both }
    requires few { conflicts ≤ MOST_CONFLICTS }
    ensures { IfOk result (λ o. IfSome o (IsTrialOf (IsFoundSide trials.now kind query))) }
{
    for _ in 0..MOST_GUESSES {
        let Some(Guess { model, dual }) = guesser.bound(trials.problem(), kind, query)? else {
            return Ok(None);
        };
        match trials.bound(alloc, kind, query, model, dual, conflicts)? {
            Trial::Found(world) => guesser.add(world)?,
            end => return Ok(Some(end)),
        }
    }
    Ok(None)
}

/// A side that is found.
pub fn find_side<G: Guesser>(
    alloc: Global,
    trials: &Trials<'_>,
    kind: ClaimKind,
    query: Query,
    guesser: &mut G,
) -> Result<Option<SideAnswer>, NoMemory>
    requires query { HasNodes trials.now.nodes query.formula query.given query.both }
    ensures { IfOk result (λ o. IfSome o (IsFoundSide trials.now kind query)) }
{
    match try_side(alloc, trials, kind, query, trials.conflicts(), guesser)? {
        Some(Trial::Shown(side)) => Ok(Some(side)),
        _ => Ok(None),
    }
}
