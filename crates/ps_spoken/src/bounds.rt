//! The bounds of a query, for people.
ghost use Rattle.std.specs.Prelude.{◌<◌, ◌≤◌, OnOk};
ghost use Rattle.ps_canonical.specs.Lines.{Adds};
ghost use Rattle.ps_frac.specs.declared.limits.TheConstants.{MOST_DIGITS};
ghost use Rattle.ps_spoken.specs.Numbers.{Puts};
ghost use Rattle.ps_spoken.specs.Spoken.{bounds_text, lower_text, sides_text, stopped_text};
ghost use Rattle.ps_spoken.specs.Spoken.{upper_text};

use crate::between::{write_between, write_least, write_most};
use crate::cause::write_cause;
use crate::numbers::append;
use crate::reached::{Reached, write_lower_between, write_upper_between};
use ps_answer::{Cause, SideAnswer};
use ps_io::NoMemory;

// Writes what stopped a side.
fn write_stop(out: &mut Vec<u8>, cause: &Cause) -> Result<(), NoMemory>
    ensures { OnOk result (Adds out.old.items out.new.items (stopped_text cause.now)) }
{
    append(out, b": ")?;
    write_cause(out, cause)?;
    append(out, b"\n")
}

// Writes a lower bound, or between which numbers it lies, and what stopped it.
fn lower_side(
    out: &mut Vec<u8>,
    side: &SideAnswer,
    reached: &Option<Reached>,
    digits: u32,
) -> Result<(), NoMemory>
    requires some { 0 < digits }
    requires few { digits ≤ MOST_DIGITS }
    ensures { Puts result out.old out.new (lower_text digits side.now reached.now) }
{
    match side {
        SideAnswer::Bound { value, .. } => write_least(out, value, digits),
        SideAnswer::Open(cause) => {
            append(out, b"  ")?;
            write_lower_between(out, reached, digits)?;
            write_stop(out, cause)
        }
    }
}

// Writes an upper bound, or between which numbers it lies, and what stopped it.
fn upper_side(
    out: &mut Vec<u8>,
    side: &SideAnswer,
    reached: &Option<Reached>,
    digits: u32,
) -> Result<(), NoMemory>
    requires some { 0 < digits }
    requires few { digits ≤ MOST_DIGITS }
    ensures { Puts result out.old out.new (upper_text digits side.now reached.now) }
{
    match side {
        SideAnswer::Bound { value, .. } => write_most(out, value, digits),
        SideAnswer::Open(cause) => {
            append(out, b"  ")?;
            write_upper_between(out, reached, digits)?;
            write_stop(out, cause)
        }
    }
}

// Writes each side of a query.
fn sides(
    out: &mut Vec<u8>,
    lower: &SideAnswer,
    upper: &SideAnswer,
    reached: &Option<Reached>,
    digits: u32,
) -> Result<(), NoMemory>
    requires some { 0 < digits }
    requires few { digits ≤ MOST_DIGITS }
    ensures { Puts result out.old out.new (sides_text digits lower.now upper.now reached.now) }
{
    lower_side(out, lower, reached, digits)?;
    upper_side(out, upper, reached, digits)
}

/// Writes the bounds of a query: both in one line, or each side, and of one that is open between
/// which numbers it lies and what stopped it.
#[tactic(auto, using(crate::proofs::Sides::open_lower, crate::proofs::Sides::open_upper))]
pub fn write_bounds(
    out: &mut Vec<u8>,
    lower: &SideAnswer,
    upper: &SideAnswer,
    reached: &Option<Reached>,
    digits: u32,
) -> Result<(), NoMemory>
    requires some { 0 < digits }
    requires few { digits ≤ MOST_DIGITS }
    ensures { Puts result out.old out.new (bounds_text digits lower.now upper.now reached.now) }
{
    match lower {
        SideAnswer::Open(_) => sides(out, lower, upper, reached, digits),
        SideAnswer::Bound { value: least, .. } => match upper {
            SideAnswer::Open(_) => sides(out, lower, upper, reached, digits),
            SideAnswer::Bound { value: most, .. } => write_between(out, least, most, digits),
        },
    }
}
