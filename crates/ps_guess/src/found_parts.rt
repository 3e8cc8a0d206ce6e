//! What guesses find of a problem and of a query.
ghost use Rattle.std.specs.Prelude.{IfOk, IfSome};
ghost use Rattle.ps_problem.specs.Problems.{HasNodes};
ghost use Rattle.ps_guess.specs.Solutions.{IsFoundVerdict};
ghost use Rattle.ps_guess.specs.Known.{IsFoundKnown};

use crate::beside::found_impossible;
use crate::found::{find_model, find_nothing, find_side};
use crate::known::{Known, known_by};
use crate::trials::Trials;
use ps_answer::Verdict;
use ps_claims::ClaimKind;
use ps_guesser::Guesser;
use ps_io::{List, NoMemory};
use ps_problem::Query;
use ps_table::Trace;
use std::alloc::Global;

/// The verdict that guesses show, without events.
#[tactic(auto, using(crate::proofs::Settled::found_consistent, crate::proofs::Settled::found_inconsistent))]
pub fn found_verdict<G: Guesser>(
    alloc: Global,
    trials: &Trials<'_>,
    guesser: &mut G,
) -> Result<Option<(Verdict, Trace)>, NoMemory>
    ensures { IfOk result (λ o. IfSome o (λ r. IsFoundVerdict trials.now r.0 r.1)) }
{
    if let Some(model) = find_model(alloc, trials, guesser)? {
        return Ok(Some((Verdict::Consistent(model), List::new(alloc))));
    }
    if let Some(dual) = find_nothing(alloc, trials, None, guesser)? {
        return Ok(Some((Verdict::Inconsistent(dual), List::new(alloc))));
    }
    Ok(None)
}

/// What guesses show of a query: the answer to it, or the sides that were found.
pub fn found_part<G: Guesser>(
    alloc: Global,
    trials: &Trials<'_>,
    query: Query,
    guesser: &mut G,
) -> Result<Known, NoMemory>
    requires query { HasNodes trials.now.nodes query.formula query.given query.both }
    ensures { IfOk result (IsFoundKnown trials.now query) }
{
    if let Some(dual) = find_nothing(alloc, trials, Some(query), guesser)? {
        return Ok(Known::Answered(found_impossible(alloc, dual)));
    }
    let lower = find_side(alloc, trials, ClaimKind::Lower, query, guesser)?;
    let upper = find_side(alloc, trials, ClaimKind::Upper, query, guesser)?;
    Ok(known_by(alloc, lower, upper))
}
