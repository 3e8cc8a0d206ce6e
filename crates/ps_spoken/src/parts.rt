//! The answers to queries, for people.
ghost use Rattle.std.specs.Prelude.{◌<◌, ◌≤◌};
ghost use Rattle.ps_problem.specs.Problems.{HasNodes};
ghost use Rattle.ps_frac.specs.declared.limits.TheConstants.{MOST_DIGITS};
ghost use Rattle.ps_spoken.specs.Numbers.{Puts};
ghost use Rattle.ps_spoken.specs.Spoken.{answer_text, between_both, part_text};

use crate::bounds::write_bounds;
use crate::cause::write_cause;
use crate::details::{Details, write_beneath};
use crate::numbers::append;
use crate::reached::{Reached, write_lower_between, write_upper_between};
use ps_answer::{QueryAnswer, QueryPart};
use ps_canonical::write_probability;
use ps_io::NoMemory;
use ps_problem::{Problem, Query};
use std::alloc::Global;

// Writes between which numbers both bounds of a query lie that is open.
#[tactic(auto, unfolding(crate::specs::Spoken::between_both))]
fn write_between_both(
    out: &mut Vec<u8>,
    reached: &Option<Reached>,
    digits: u32,
) -> Result<(), NoMemory>
    requires some { 0 < digits }
    requires few { digits ≤ MOST_DIGITS }
    ensures { Puts result out.old out.new (between_both digits reached.now) }
{
    append(out, b"  ")?;
    write_lower_between(out, reached, digits)?;
    append(out, b"\n  ")?;
    write_upper_between(out, reached, digits)?;
    append(out, b"\n")
}

// Writes the answer to a query, and what is reached of it where it is open.
fn write_query_answer(
    out: &mut Vec<u8>,
    answer: &QueryAnswer,
    reached: &Option<Reached>,
    digits: u32,
) -> Result<(), NoMemory>
    requires some { 0 < digits }
    requires few { digits ≤ MOST_DIGITS }
    ensures { Puts result out.old out.new (answer_text digits answer.now reached.now) }
{
    match answer {
        QueryAnswer::Bounds { lower, upper, .. } => {
            write_bounds(out, lower, upper, reached, digits)
        }
        QueryAnswer::Impossible(_) => append(
            out,
            b"  impossible: the sentences give the condition probability 0\n",
        ),
        QueryAnswer::Open(cause) => {
            append(out, b"  open: ")?;
            write_cause(out, cause)?;
            append(out, b"\n")?;
            write_between_both(out, reached, digits)
        }
    }
}

/// Writes a query by its own text, and the answer to it, with what is reached of it where it is
/// open, and what is told of its bounds.
pub fn write_part(
    alloc: Global,
    out: &mut Vec<u8>,
    problem: &Problem,
    query: Query,
    part: &QueryPart,
    told: &Details,
    digits: u32,
) -> Result<(), NoMemory>
    requires query { HasNodes problem.now.nodes query.formula query.given query.both }
    requires some { 0 < digits }
    requires few { digits ≤ MOST_DIGITS }
    ensures { Puts result out.old out.new
        (part_text digits problem.now query part.now told.now) }
{
    write_probability(alloc, problem, query.formula, query.given, out)?;
    append(out, b"\n")?;
    write_query_answer(out, &part.answer, &told.reached, digits)?;
    write_beneath(alloc, out, problem, told, digits)
}
