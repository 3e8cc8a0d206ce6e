//! The values of an answer alone.
ghost use Rattle.std.specs.Prelude.{◌<◌, ◌≤◌, OnOk};
ghost use Rattle.ps_canonical.specs.Lines.{Adds};
ghost use Rattle.ps_frac.specs.declared.limits.TheConstants.{MOST_DIGITS};
ghost use Rattle.ps_spoken.specs.Quiet.{lower_value, upper_value, query_values};
ghost use Rattle.ps_spoken.specs.Quiet.{parts_values, values_of, verdict_value};

use crate::numbers::{append, high, low};
use ps_answer::{Answer, QueryAnswer, QueryPart, SideAnswer, Verdict};
use ps_io::NoMemory;

// Writes a lower bound, rounded down.
fn lower(out: &mut Vec<u8>, side: &SideAnswer, digits: u32) -> Result<(), NoMemory>
    requires some { 0 < digits }
    requires few { digits ≤ MOST_DIGITS }
    ensures { OnOk result (Adds out.old.items out.new.items (lower_value digits side.now)) }
{
    match side {
        SideAnswer::Bound { value, .. } => low(out, value, digits),
        SideAnswer::Open(_) => append(out, b"?"),
    }
}

// Writes an upper bound, rounded up.
fn upper(out: &mut Vec<u8>, side: &SideAnswer, digits: u32) -> Result<(), NoMemory>
    requires some { 0 < digits }
    requires few { digits ≤ MOST_DIGITS }
    ensures { OnOk result (Adds out.old.items out.new.items (upper_value digits side.now)) }
{
    match side {
        SideAnswer::Bound { value, .. } => high(out, value, digits),
        SideAnswer::Open(_) => append(out, b"?"),
    }
}

/// Writes the values of a query in one line.
pub fn write_query_values(
    out: &mut Vec<u8>,
    answer: &QueryAnswer,
    digits: u32,
) -> Result<(), NoMemory>
    requires some { 0 < digits }
    requires few { digits ≤ MOST_DIGITS }
    ensures { OnOk result (Adds out.old.items out.new.items (query_values digits answer.now)) }
{
    match answer {
        QueryAnswer::Bounds {
            lower: least,
            upper: most,
            ..
        } => {
            lower(out, least, digits)?;
            append(out, b" ")?;
            upper(out, most, digits)?;
            append(out, b"\n")
        }
        QueryAnswer::Impossible(_) => append(out, b"impossible\n"),
        QueryAnswer::Open(_) => append(out, b"? ?\n"),
    }
}

// Writes the values of queries, one line each.
fn queries(out: &mut Vec<u8>, parts: &[QueryPart], digits: u32) -> Result<(), NoMemory>
    requires some { 0 < digits }
    requires few { digits ≤ MOST_DIGITS }
    ensures { OnOk result (Adds out.old.items out.new.items (parts_values digits parts.now)) }
{
    for part in parts {
        write_query_values(out, &part.answer, digits)?;
    }
    Ok(())
}

/// Writes the verdict in a word.
pub fn write_verdict_value(out: &mut Vec<u8>, verdict: &Verdict) -> Result<(), NoMemory>
    ensures { OnOk result (Adds out.old.items out.new.items (verdict_value verdict.now)) }
{
    match verdict {
        Verdict::Consistent(_) => append(out, b"consistent\n"),
        Verdict::Inconsistent(_) => append(out, b"inconsistent\n"),
        Verdict::Open(_) => append(out, b"open\n"),
    }
}

/// Writes the verdict of an answer in a word, and the bounds of each query in a line, as decimals of
/// so many digits rounded outward. A `?` stands for a side that is open.
#[tactic(auto, unfolding(crate::specs::Quiet::values_of))]
pub(crate) fn write_values(out: &mut Vec<u8>, answer: &Answer, digits: u32) -> Result<(), NoMemory>
    requires some { 0 < digits }
    requires few { digits ≤ MOST_DIGITS }
    ensures { OnOk result (Adds out.old.items out.new.items (values_of digits answer.now)) }
{
    write_verdict_value(out, &answer.verdict)?;
    queries(out, answer.parts.as_slice(), digits)
}
