//! The queries of a problem, each with the answer to it, as objects.
ghost use Rattle.std.specs.Prelude.{◌<◌, ◌≤◌};
ghost use Rattle.ps_problem.specs.Problems.{HasNodes};
ghost use Rattle.ps_spoken.specs.Numbers.{Puts};
ghost use Rattle.ps_frac.specs.declared.limits.TheConstants.{MOST_DIGITS};
ghost use Rattle.ps_spoken.specs.Queries.{answer_members, asked_at, entry_text, queries_text};
ghost use Rattle.ps_spoken.specs.Queries.{query_object};

use crate::details::Details;
use crate::json_bounds::{write_bounds, write_open};
use crate::listing::write_comma;
use crate::numbers::append;
use ps_answer::{QueryAnswer, QueryPart};
use ps_canonical::write_probability;
use ps_io::NoMemory;
use ps_problem::{Problem, Query};
use std::alloc::Global;

// Writes the members of an answer to a query, from its status on.
fn write_members(
    alloc: Global,
    out: &mut Vec<u8>,
    problem: &Problem,
    answer: &QueryAnswer,
    told: &Details,
    digits: u32,
) -> Result<(), NoMemory>
    requires some { 0 < digits }
    requires few { digits ≤ MOST_DIGITS }
    ensures { Puts result out.old out.new
        (answer_members digits problem.now answer.now told.now) }
{
    match answer {
        QueryAnswer::Bounds { lower, upper, .. } => {
            write_bounds(alloc, out, problem, lower, upper, told, digits)
        }
        QueryAnswer::Impossible(_) => append(
            out,
            b"impossible\",\"why\":null,\"lower\":null,\"upper\":null}",
        ),
        QueryAnswer::Open(cause) => write_open(out, cause, &told.reached, digits),
    }
}

// Writes a query with the answer to it.
#[tactic(auto, unfolding(crate::specs::Queries::query_object))]
fn write_query(
    alloc: Global,
    out: &mut Vec<u8>,
    problem: &Problem,
    query: Query,
    part: &QueryPart,
    told: &Details,
    digits: u32,
) -> Result<(), NoMemory>
    requires query { HasNodes problem.now.nodes query.formula query.given query.both }
    requires some { 0 < digits }
    requires few { digits ≤ MOST_DIGITS }
    ensures { Puts result out.old out.new
        (query_object digits problem.now query part.now told.now) }
{
    append(out, b"{\"query\":\"")?;
    write_probability(alloc, problem, query.formula, query.given, out)?;
    append(out, b"\",\"status\":\"")?;
    write_members(alloc, out, problem, &part.answer, told, digits)
}

// Writes the query at a place with the answer to it, and a comma before it but before the first.
fn write_asked(
    alloc: Global,
    out: &mut Vec<u8>,
    problem: &Problem,
    place: usize,
    part: &QueryPart,
    told: &Details,
    digits: u32,
) -> Result<(), NoMemory>
    requires some { 0 < digits }
    requires few { digits ≤ MOST_DIGITS }
    ensures { Puts result out.old out.new
        (asked_at digits problem.now place part.now told.now) }
{
    let Some(query) = problem.queries().get(place) else {
        return Ok(());
    };
    write_comma(out, place)?;
    write_query(alloc, out, problem, *query, part, told, digits)
}

// The same with what is told of it, where something is.
fn write_entry(
    alloc: Global,
    out: &mut Vec<u8>,
    problem: &Problem,
    place: usize,
    part: &QueryPart,
    details: &[Details],
    digits: u32,
) -> Result<(), NoMemory>
    requires some { 0 < digits }
    requires few { digits ≤ MOST_DIGITS }
    ensures { Puts result out.old out.new
        (entry_text digits problem.now details.now place part.now) }
{
    match details.get(place) {
        Some(told) => write_asked(alloc, out, problem, place, part, told, digits),
        None => write_asked(alloc, out, problem, place, part, &Details::none(), digits),
    }
}

/// Writes the queries of a problem, each with the answer to it, and with what is told of it.
pub fn write_queries(
    alloc: Global,
    out: &mut Vec<u8>,
    problem: &Problem,
    parts: &[QueryPart],
    details: &[Details],
    digits: u32,
) -> Result<(), NoMemory>
    requires some { 0 < digits }
    requires few { digits ≤ MOST_DIGITS }
    ensures { Puts result out.old out.new
        (queries_text digits problem.now parts.now details.now) }
{
    for place in 0..parts.len() {
        write_entry(alloc, out, problem, place, &parts[place], details, digits)?;
    }
    Ok(())
}
