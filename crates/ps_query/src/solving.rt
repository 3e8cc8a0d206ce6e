//! The answer to a problem.
ghost use Rattle.std.specs.Prelude.{◌≡◌, ◌≢◌, [], None, IfOk};
ghost use Rattle.std.specs.List.{AllZip};
ghost use Rattle.ps_problem.specs.Problems.{HasNodes};
ghost use Rattle.ps_claims.specs.Printed.{IsPrintedPart};
ghost use Rattle.ps_generation.specs.Phases.{AreLimits};
ghost use Rattle.ps_generation.specs.Runs.{IsAtStart, IsPrintedFirst, IsReached, verdict_of};
ghost use Rattle.ps_query.specs.Parts.{AreBoundsBehind, AreBoundsOf, ArePartsUnder, ComesOf};
ghost use Rattle.ps_query.specs.Parts.{HasReachedAlone, IsBehind, IsNewOverAll, IsOpening};
ghost use Rattle.ps_query.specs.Parts.{IsPartOf, IsPartOfRun, IsVerdictOf, MayGoOn};
ghost use Rattle.ps_query.specs.Solutions.{AreShortLines, IsReadBack, IsSolution};

use crate::starting::run_over_all;
use ps_answer::{Answer, Parts, QueryAnswer, QueryPart, Verdict};
use ps_generation::{First, Limits, Run};
use ps_io::{List, NoMemory};
use ps_problem::{Problem, Query};
use ps_table::{Trace, trace_copy};
use std::alloc::Global;

/// The verdict of phase one.
fn verdict_of(first: First) -> Verdict
    ensures { result ≡ verdict_of first }
{
    match first {
        First::Reached(model) => Verdict::Consistent(model),
        First::Nothing(dual) => Verdict::Inconsistent(dual),
        First::Open(cause) => Verdict::Open(cause),
    }
}

/// The two sides of a query.
fn bounds(run: &mut Run<'_>) -> Result<QueryAnswer, NoMemory>
    requires query { run.old.over.subject.query ≢ None }
    requires reached { IsReached run.old }
    requires taken { run.old.trace ≡ [] }
    ensures bounds { IfOk result (AreBoundsOf run.old) }
    ensures printed { IfOk result IsPrintedPart }
{
    let lower = run.lower()?;
    let lower_trace = run.take_trace();
    let upper = run.upper()?;
    Ok(QueryAnswer::Bounds {
        lower,
        lower_trace,
        upper,
        upper_trace: run.take_trace(),
    })
}

/// What is answered to a query behind phase one.
fn answer_behind(run: &mut Run<'_>, first: First) -> Result<QueryAnswer, NoMemory>
    requires query { run.old.over.subject.query ≢ None }
    requires reached { MayGoOn first run.old }
    requires taken { run.old.trace ≡ [] }
    requires printed { IsPrintedFirst first }
    ensures behind { IfOk result (IsBehind run.old first) }
    ensures printed { IfOk result IsPrintedPart }
{
    match first {
        First::Reached(_) => bounds(run),
        First::Nothing(dual) => Ok(QueryAnswer::Impossible(dual)),
        First::Open(cause) => Ok(QueryAnswer::Open(cause)),
    }
}

/// The answer to the query of a run at its start.
fn part_of(run: &mut Run<'_>) -> Result<QueryPart, NoMemory>
    requires query { run.old.over.subject.query ≢ None }
    requires start { IsAtStart run.old }
    ensures { IfOk result (IsPartOfRun run.old) }
{
    let reached = run.phase_one()?;
    let first = run.take_trace();
    let answer = answer_behind(run, reached)?;
    Ok(QueryPart { answer, first })
}

/// The answer to a query, from a run of its own.
pub fn query_part(
    alloc: Global,
    problem: &Problem,
    query: Query,
    limits: Limits,
) -> Result<QueryPart, NoMemory>
    requires query { HasNodes problem.now.nodes query.formula query.given query.both }
    requires limits { AreLimits limits }
    ensures { IfOk result (IsPartOf limits problem.now query) }
{
    let mut run = run_over_all(alloc, problem, Some(query), limits)?;
    part_of(&mut run)
}

/// The two sides of the query of a run that has reached a distribution, behind these events.
fn bounds_behind(alloc: Global, run: &mut Run<'_>, first: &Trace) -> Result<QueryPart, NoMemory>
    requires query { run.old.over.subject.query ≢ None }
    requires reached { IsReached run.old }
    requires taken { run.old.trace ≡ [] }
    ensures { IfOk result (AreBoundsBehind run.old first.now) }
{
    Ok(QueryPart {
        answer: bounds(run)?,
        first: trace_copy(alloc, first.as_slice())?,
    })
}

/// The answer to a query, behind a run without a query: one without evidence goes on from there.
fn part_behind(
    alloc: Global,
    problem: &Problem,
    query: Query,
    limits: Limits,
    run: &Run<'_>,
    first: &Trace,
) -> Result<QueryPart, NoMemory>
    requires query { HasNodes problem.now.nodes query.formula query.given query.both }
    requires limits { AreLimits limits }
    requires reached { HasReachedAlone limits problem.now first.now run.now }
    ensures { IfOk result (IsPartOf limits problem.now query) }
{
    if query.given.is_some() {
        return query_part(alloc, problem, query, limits);
    }
    let mut asked = run.asking(query)?;
    bounds_behind(alloc, &mut asked, first)
}

/// The answers to all queries, behind a run without a query.
fn query_parts(
    alloc: Global,
    problem: &Problem,
    limits: Limits,
    run: &Run<'_>,
    first: &Trace,
) -> Result<Parts, NoMemory>
    requires limits { AreLimits limits }
    requires reached { HasReachedAlone limits problem.now first.now run.now }
    ensures { IfOk result (AllZip (IsPartOf limits problem.now) problem.now.queries) }
{
    let mut parts = List::new(alloc);
    for query in problem.queries().as_slice() {
        parts.push(part_behind(alloc, problem, *query, limits, run, first)?)?;
    }
    Ok(parts)
}

/// The answers to the queries of a problem, behind its verdict and the run without a query.
fn parts_under(
    alloc: Global,
    problem: &Problem,
    limits: Limits,
    verdict: &Verdict,
    run: &Run<'_>,
    first: &Trace,
) -> Result<Parts, NoMemory>
    requires limits { AreLimits limits }
    requires comes { ComesOf limits problem.now verdict.now first.now run.now }
    ensures { IfOk result (ArePartsUnder limits problem.now verdict.now) }
{
    match verdict {
        Verdict::Consistent(_) => query_parts(alloc, problem, limits, run, first),
        Verdict::Inconsistent(_) | Verdict::Open(_) => Ok(List::new(alloc)),
    }
}

/// The verdict of a run without a query, at its start, with the run's events.
fn begin(run: &mut Run<'_>) -> Result<(Verdict, Trace), NoMemory>
    requires start { IsAtStart run.old }
    ensures { IfOk result (λ r. IsOpening run.old run.new r.0 r.1) }
{
    let verdict = verdict_of(run.phase_one()?);
    Ok((verdict, run.take_trace()))
}

/// The verdict on a problem, from a run without a query, with the run's events.
pub fn verdict_part(
    alloc: Global,
    problem: &Problem,
    limits: Limits,
) -> Result<(Verdict, Trace), NoMemory>
    requires limits { AreLimits limits }
    ensures { IfOk result (λ r. IsVerdictOf limits problem.now r.0 r.1) }
{
    let mut run = run_over_all(alloc, problem, None, limits)?;
    begin(&mut run)
}

/// The answer to a problem, by a run without a query, at its start.
fn answer_by(
    alloc: Global,
    problem: &Problem,
    limits: Limits,
    run: &mut Run<'_>,
) -> Result<Answer, NoMemory>
    requires limits { AreLimits limits }
    requires new { IsNewOverAll problem.now None limits run.old }
    ensures solution { IfOk result (IsSolution limits problem.now) }
    ensures short { IfOk result AreShortLines }
    ensures read_back { IfOk result (IsReadBack limits) }
{
    // Called for its clauses: the problem is within the limits, and its numbers are in range.
    let _sound = problem.rows();
    let (verdict, first) = begin(run)?;
    let parts = parts_under(alloc, problem, limits, &verdict, run, &first)?;
    Ok(Answer {
        verdict,
        first,
        parts,
    })
}

/// The answer to a problem within limits of pivots and conflicts: the verdict, and where that is
/// consistent the tightest bounds of each query. A part is open only by the limits or for a number
/// that is too wide.
pub fn solve(alloc: Global, problem: &Problem, limits: Limits) -> Result<Answer, NoMemory>
    requires limits { AreLimits limits }
    ensures solution { IfOk result (IsSolution limits problem.now) }
    ensures short { IfOk result AreShortLines }
    ensures read_back { IfOk result (IsReadBack limits) }
{
    let mut run = run_over_all(alloc, problem, None, limits)?;
    answer_by(alloc, problem, limits, &mut run)
}
