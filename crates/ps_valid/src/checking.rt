//! The check of all claims of an answer, in their order.
ghost use Rattle.std.specs.Prelude.{◌≡◌, ◌+◌, ◌<◌, ◌≤◌, ◌^◌, All, OnOk, length};
ghost use Rattle.ps_problem.specs.declared.limits.TheConstants.{MOST_QUERIES};
ghost use Rattle.ps_problem.specs.Problems.{HasNodes};
ghost use Rattle.ps_claims.specs.Answers.{asked_under};
ghost use Rattle.ps_valid.specs.Answers.{verdict_of, IsRightOf};
ghost use Rattle.ps_valid.specs.ClaimLists.{IsAnswerTo, IsJudgedVerdict, IsJudgedSide};
ghost use Rattle.ps_valid.specs.ClaimLists.{AreJudgedSides, IsJudgedPart, AreJudgedParts};
ghost use Rattle.ps_valid.specs.Judged.{IsJudged};
ghost use Rattle.ps_valid.specs.Limits.{IsSmallAnswer, IsSmallPart, IsSmallSide, IsSmallVerdict};

use crate::bounded::check_bound;
use crate::modelled::check_model;
use crate::refuting::check_dual;
use crate::{Accepted, CheckError, Refusal};
use ps_answer::{Answer, QueryAnswer, QueryPart, SideAnswer, Verdict};
use ps_claims::{Claim, ClaimKind, Reason};
use ps_problem::{Problem, Query};
use std::alloc::Global;

const NOTHING: Accepted = Accepted {
    claims: 0,
    unfinished: 0,
};

const ONE_CLAIM: Accepted = Accepted {
    claims: 1,
    unfinished: 0,
};

const ONE_OPEN: Accepted = Accepted {
    claims: 0,
    unfinished: 1,
};

fn sum_of(a: Accepted, b: Accepted) -> Accepted
    requires claims { a.claims + b.claims < 2 ^ 32 }
    requires unfinished { a.unfinished + b.unfinished < 2 ^ 32 }
    ensures claims { result.claims ≡ a.claims + b.claims }
    ensures unfinished { result.unfinished ≡ a.unfinished + b.unfinished }
{
    Accepted {
        claims: a.claims + b.claims,
        unfinished: a.unfinished + b.unfinished,
    }
}

// What is answered of one claim, by what is found against it.
fn answer_to(claim: Claim, found: Option<Reason>) -> Result<Accepted, CheckError>
    ensures { IsAnswerTo claim found result }
{
    match found {
        None => Ok(ONE_CLAIM),
        Some(reason) => Err(CheckError::Refused(Refusal { claim, reason })),
    }
}

fn check_verdict(
    alloc: Global,
    problem: &Problem,
    verdict: &Verdict,
) -> Result<Accepted, CheckError>
    requires limits { IsSmallVerdict verdict.now }
    ensures { IsJudgedVerdict problem.now verdict.now result }
{
    match verdict {
        Verdict::Consistent(model) => {
            let found = check_model(alloc, problem, model)?;
            answer_to(Claim::Verdict, found)
        }
        Verdict::Inconsistent(dual) => {
            let found = check_dual(alloc, problem, None, dual)?;
            answer_to(Claim::Verdict, found)
        }
        Verdict::Open(_) => Ok(ONE_OPEN),
    }
}

fn check_side(
    alloc: Global,
    problem: &Problem,
    claim: Claim,
    kind: ClaimKind,
    query: &Query,
    side: &SideAnswer,
) -> Result<Accepted, CheckError>
    requires query { HasNodes problem.now.nodes query.now.formula query.now.given query.now.both }
    requires limits { IsSmallSide side.now }
    ensures { IsJudgedSide problem.now claim kind query.now side.now result }
{
    match side {
        SideAnswer::Bound { value, model, dual } => {
            let found = check_bound(alloc, problem, kind, query, value, model, dual)?;
            answer_to(claim, found)
        }
        SideAnswer::Open(_) => Ok(ONE_OPEN),
    }
}

fn check_sides(
    alloc: Global,
    problem: &Problem,
    number: u32,
    query: &Query,
    lower: &SideAnswer,
    upper: &SideAnswer,
) -> Result<Accepted, CheckError>
    requires query { HasNodes problem.now.nodes query.now.formula query.now.given query.now.both }
    requires lower { IsSmallSide lower.now }
    requires upper { IsSmallSide upper.now }
    ensures { AreJudgedSides problem.now number query.now lower.now upper.now result }
{
    let at = Claim::Lower { number };
    let below = check_side(alloc, problem, at, ClaimKind::Lower, query, lower)?;
    let at = Claim::Upper { number };
    let above = check_side(alloc, problem, at, ClaimKind::Upper, query, upper)?;
    Ok(sum_of(below, above))
}

// The answer to the query of this number, from 1.
fn check_part(
    alloc: Global,
    problem: &Problem,
    number: u32,
    query: &Query,
    answer: &QueryAnswer,
) -> Result<Accepted, CheckError>
    requires query { HasNodes problem.now.nodes query.now.formula query.now.given query.now.both }
    requires limits { IsSmallPart answer.now }
    ensures { IsJudgedPart problem.now number query.now answer.now result }
{
    match answer {
        QueryAnswer::Bounds { lower, upper, .. } => {
            check_sides(alloc, problem, number, query, lower, upper)
        }
        QueryAnswer::Impossible(dual) => {
            let found = check_dual(alloc, problem, query.given, dual)?;
            answer_to(Claim::Query { number }, found)
        }
        QueryAnswer::Open(_) => Ok(ONE_OPEN),
    }
}

fn check_parts(
    alloc: Global,
    problem: &Problem,
    queries: &[Query],
    parts: &[QueryPart],
) -> Result<Accepted, CheckError>
    requires lengths { length parts.now ≡ length queries.now }
    requires few { length queries.now ≤ MOST_QUERIES }
    requires queries { All (λ q. HasNodes problem.now.nodes q.formula q.given q.both) queries.now }
    requires limits { All (λ part. IsSmallPart part.answer) parts.now }
    ensures { AreJudgedParts problem.now queries.now parts.now result }
{
    let mut all = NOTHING;
    for i in 0..queries.len() {
        let number = i as u32 + 1;
        let part = check_part(alloc, problem, number, &queries[i], &parts[i].answer)?;
        all = sum_of(all, part);
    }
    Ok(all)
}

// The queries that have a part.
fn queries_asked<'p>(problem: &'p Problem, verdict: &Verdict) -> &'p [Query]
    ensures queries { result.now ≡ asked_under (verdict_of verdict.now) problem.now.queries }
    ensures few { length result.now ≤ MOST_QUERIES }
    ensures sound { All (λ q. HasNodes problem.now.nodes q.formula q.given q.both) result.now }
{
    match verdict {
        Verdict::Consistent(_) => problem.queries().as_slice(),
        Verdict::Inconsistent(_) => &[],
        Verdict::Open(_) => &[],
    }
}

/// Judges an answer to a problem. It is accepted where each of its claims is valid, and then it is
/// right; otherwise the first claim in the order of a report that isn't valid is refused, for the
/// first reason in the order of `Reason`.
pub fn check(alloc: Global, problem: &Problem, answer: &Answer) -> Result<Accepted, CheckError>
    requires limits { IsSmallAnswer answer.now }
    ensures judged { IsJudged problem.now answer.now result }
    ensures right { OnOk result (IsRightOf problem.now answer.now) }
{
    // Called for its clauses: the problem is within the limits, its numbers in range.
    let _sound = problem.rows();
    let queries = queries_asked(problem, &answer.verdict);
    let parts = answer.parts.as_slice();
    if parts.len() != queries.len() {
        return Err(CheckError::Refused(Refusal {
            claim: Claim::Report,
            reason: Reason::WrongShape,
        }));
    }
    let verdict = check_verdict(alloc, problem, &answer.verdict)?;
    let others = check_parts(alloc, problem, queries, parts)?;
    Ok(sum_of(verdict, others))
}
