//! The object of an answer.
ghost use Rattle.std.specs.Prelude.{◌<◌, ◌≤◌};
ghost use Rattle.ps_spoken.specs.Numbers.{Says};
ghost use Rattle.ps_frac.specs.declared.limits.TheConstants.{MOST_DIGITS};
ghost use Rattle.ps_spoken.specs.Objects.{end_text, facts, object, open_members};
ghost use Rattle.ps_spoken.specs.Objects.{status_member, verdict_members};

use crate::cause::write_cause;
use crate::clash::Clash;
use crate::counts::write_counts;
use crate::details::Details;
use crate::json_clash::write_clash;
use crate::numbers::{append, number};
use crate::queries::write_queries;
use crate::strings::write_string;
use crate::unused::write_unused_member;
use crate::warned::{Warned, write_warnings};
use ps_answer::{Answer, Cause, Verdict};
use ps_io::{List, NoMemory};
use ps_problem::Problem;
use std::alloc::Global;

/// What is told beside an answer.
#[derive(Clone, Copy, Drop)]
pub struct Told<'a> {
    /// How many digits decimals have behind the point.
    pub digits: u32,
    /// The name of the problem's file.
    pub file: &'a [u8],
    /// What is told of each query.
    pub details: &'a [Details],
    /// Which sentences clash, where some do.
    pub clash: &'a Option<Clash>,
    /// The sentences on which no bound rests, where they are asked for.
    pub unused: &'a Option<List<u32>>,
    /// The lines on which the sentences begin.
    pub lines: &'a [u32],
    /// Warnings about the problem.
    pub warnings: &'a [Warned],
    /// How much is open.
    pub unfinished: i128,
    /// The number of the status.
    pub status: u8,
}

// Writes the members of an open verdict.
fn write_open(out: &mut Vec<u8>, cause: &Cause) -> Result<(), NoMemory>
    ensures { Says result out.old.items out.new.items (open_members cause.now) }
{
    append(out, b",\"verdict\":\"open\",\"why\":\"")?;
    write_cause(out, cause)?;
    append(out, b"\"")
}

// Writes the members of a verdict.
fn write_verdict(out: &mut Vec<u8>, verdict: &Verdict) -> Result<(), NoMemory>
    ensures { Says result out.old.items out.new.items (verdict_members verdict.now) }
{
    match verdict {
        Verdict::Consistent(_) => append(out, b",\"verdict\":\"consistent\",\"why\":null"),
        Verdict::Inconsistent(_) => append(out, b",\"verdict\":\"inconsistent\",\"why\":null"),
        Verdict::Open(cause) => write_open(out, cause),
    }
}

// Writes the status, and the end of the object.
#[tactic(auto, unfolding(crate::specs::Objects::status_member))]
fn write_status(out: &mut Vec<u8>, status: u8) -> Result<(), NoMemory>
    ensures { Says result out.old.items out.new.items (status_member status) }
{
    append(out, b",\"status\":")?;
    number(out, i128::from(status))?;
    append(out, b"}\n")
}

// Writes the members behind the queries.
#[tactic(auto, unfolding(crate::specs::Objects::end_text))]
fn write_end(
    alloc: Global,
    out: &mut Vec<u8>,
    problem: &Problem,
    told: &Told<'_>,
) -> Result<(), NoMemory>
    ensures { Says result out.old.items out.new.items
        (end_text problem.now (facts told.now)) }
{
    append(out, b"],\"clash\":")?;
    write_clash(alloc, out, problem, told.lines, told.clash)?;
    write_unused_member(alloc, out, problem, told.lines, told.unused)?;
    append(out, b",\"counts\":")?;
    write_counts(out, problem, told.unfinished)?;
    write_warnings(out, told.warnings)?;
    write_status(out, told.status)
}

/// Writes the object of an answer to a problem behind what was written, on one line: the verdict,
/// each query by its own text with its bounds, exact and as decimals rounded outward, or between
/// which numbers they lie, and what is told of them, which sentences clash, on which no bound rests,
/// counts, warnings, and the status.
#[tactic(auto, unfolding(crate::specs::Objects::object))]
pub fn write_object(
    alloc: Global,
    out: &mut Vec<u8>,
    problem: &Problem,
    answer: &Answer,
    told: &Told<'_>,
) -> Result<(), NoMemory>
    requires some { 0 < told.now.digits }
    requires few { told.now.digits ≤ MOST_DIGITS }
    ensures { Says result out.old.items out.new.items
        (object problem.now answer.now (facts told.now)) }
{
    append(out, b"{\"file\":")?;
    write_string(out, told.file)?;
    write_verdict(out, &answer.verdict)?;
    append(out, b",\"queries\":[")?;
    let parts = answer.parts.as_slice();
    write_queries(alloc, out, problem, parts, told.details, told.digits)?;
    write_end(alloc, out, problem, told)
}
