//! The answer to a problem.
ghost use Rattle.std.specs.Prelude.{IfOk, IfSome};
ghost use Rattle.std.specs.List.{AllZip};
ghost use Rattle.ps_problem.specs.Problems.{HasNodes};
ghost use Rattle.ps_claims.specs.declared.claim_kind.ClaimKind.TheVariants.{Lower, Upper};
ghost use Rattle.ps_guess.specs.Trials.{IsFoundSide};
ghost use Rattle.ps_generation.specs.Phases.{AreLimits};
ghost use Rattle.ps_query.specs.Solutions.{AreShortLines, IsReadBack};
ghost use Rattle.ps_guess.specs.Solutions.{AreAnsweredParts, IsAnsweredPart};
ghost use Rattle.ps_guess.specs.Solutions.{IsAnsweredVerdict, IsSettledSolution};
ghost use Rattle.ps_guess.specs.Known.{ShowsSides};

use crate::beside::beside_run;
use crate::found_parts::{found_part, found_verdict};
use crate::known::Known;
use crate::trials::Trials;
use ps_answer::{Answer, Parts, QueryPart, SideAnswer, Verdict};
use ps_guesser::Guesser;
use ps_io::{List, NoMemory};
use ps_problem::{Problem, Query};
use ps_query::{Limits, query_part, verdict_part};
use ps_table::Trace;
use std::alloc::Global;

/// The verdict on the problem of trials: found, or run where no guess is shown.
#[tactic(auto, using(crate::proofs::Settled::run_verdict))]
pub fn answer_verdict<G: Guesser>(
    alloc: Global,
    trials: &Trials<'_>,
    limits: Limits,
    guesser: &mut G,
) -> Result<(Verdict, Trace), NoMemory>
    requires limits { AreLimits limits }
    ensures { IfOk result (λ r. IsAnsweredVerdict limits trials.now r.0 r.1) }
{
    match found_verdict(alloc, trials, guesser)? {
        Some(found) => Ok(found),
        None => last_verdict(alloc, trials, limits),
    }
}

/// The verdict on the problem of trials by a run.
#[tactic(auto, using(crate::proofs::Settled::run_verdict))]
pub fn last_verdict(
    alloc: Global,
    trials: &Trials<'_>,
    limits: Limits,
) -> Result<(Verdict, Trace), NoMemory>
    requires limits { AreLimits limits }
    ensures { IfOk result (λ r. IsAnsweredVerdict limits trials.now r.0 r.1) }
{
    verdict_part(alloc, trials.problem(), limits)
}

/// The answer to a query by a run, with the sides that were found in place of the run's: none of
/// them is lost.
pub fn run_beside(
    alloc: Global,
    trials: &Trials<'_>,
    query: Query,
    limits: Limits,
    lower: Option<SideAnswer>,
    upper: Option<SideAnswer>,
) -> Result<QueryPart, NoMemory>
    requires query { HasNodes trials.now.nodes query.formula query.given query.both }
    requires limits { AreLimits limits }
    requires lower { IfSome lower (IsFoundSide trials.now Lower query) }
    requires upper { IfSome upper (IsFoundSide trials.now Upper query) }
    ensures answered { IfOk result (IsAnsweredPart limits trials.now query) }
    ensures shown { IfOk result (λ part. ShowsSides lower upper part.answer) }
{
    let run = query_part(alloc, trials.problem(), query, limits)?;
    Ok(beside_run(alloc, run, lower, upper))
}

/// The answer to a query of the problem of trials: what is found of it, and what isn't by a run.
pub fn answer_part<G: Guesser>(
    alloc: Global,
    trials: &Trials<'_>,
    query: Query,
    limits: Limits,
    guesser: &mut G,
) -> Result<QueryPart, NoMemory>
    requires query { HasNodes trials.now.nodes query.formula query.given query.both }
    requires limits { AreLimits limits }
    ensures { IfOk result (IsAnsweredPart limits trials.now query) }
{
    match found_part(alloc, trials, query, guesser)? {
        Known::Answered(part) => Ok(part),
        Known::Sides { lower, upper } => run_beside(alloc, trials, query, limits, lower, upper),
    }
}

// The answers to all queries.
fn all_parts<G: Guesser>(
    alloc: Global,
    trials: &Trials<'_>,
    limits: Limits,
    guesser: &mut G,
) -> Result<Parts, NoMemory>
    requires limits { AreLimits limits }
    ensures { IfOk result (AllZip (IsAnsweredPart limits trials.now) trials.now.queries) }
{
    let mut parts = List::new(alloc);
    for query in trials.problem().queries().as_slice() {
        parts.push(answer_part(alloc, trials, *query, limits, guesser)?)?;
    }
    Ok(parts)
}

// The answers to the queries of a problem with this verdict.
fn parts_under<G: Guesser>(
    alloc: Global,
    trials: &Trials<'_>,
    verdict: &Verdict,
    limits: Limits,
    guesser: &mut G,
) -> Result<Parts, NoMemory>
    requires limits { AreLimits limits }
    ensures { IfOk result (AreAnsweredParts limits trials.now verdict.now) }
{
    match verdict {
        Verdict::Consistent(_) => all_parts(alloc, trials, limits, guesser),
        Verdict::Inconsistent(_) | Verdict::Open(_) => Ok(List::new(alloc)),
    }
}

/// The answer to a problem within limits of pivots and conflicts: each part is guessed, and what no
/// guess shows comes of a lawful run within the limits. The guesser is told each world that a guess
/// overlooks, and is asked again. A part is open only by the limits or for a number of its run that
/// is too wide.
pub fn answer<G: Guesser>(
    alloc: Global,
    problem: &Problem,
    limits: Limits,
    guesser: &mut G,
) -> Result<Answer, NoMemory>
    requires limits { AreLimits limits }
    ensures solution { IfOk result (IsSettledSolution limits problem.now) }
    ensures short { IfOk result AreShortLines }
    ensures read_back { IfOk result (IsReadBack limits) }
{
    // Called for its clauses: the problem is within the limits, and its numbers are in range.
    let _sound = problem.rows();
    let trials = Trials::new(alloc, problem, limits.conflicts)?;
    let (verdict, first) = answer_verdict(alloc, &trials, limits, guesser)?;
    let parts = parts_under(alloc, &trials, &verdict, limits, guesser)?;
    Ok(Answer {
        verdict,
        first,
        parts,
    })
}
