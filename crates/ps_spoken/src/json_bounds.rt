//! The bounds of a query as objects.
ghost use Rattle.std.specs.Prelude.{◌<◌, ◌≤◌};
ghost use Rattle.ps_spoken.specs.Numbers.{Puts, Says};
ghost use Rattle.ps_frac.specs.declared.limits.TheConstants.{MOST_DIGITS};
ghost use Rattle.ps_spoken.specs.Bounds.{two_bounds, end_text, exact_text, lower_object};
ghost use Rattle.ps_spoken.specs.Bounds.{greatest_object, least_object, open_lower, open_members};
ghost use Rattle.ps_spoken.specs.Bounds.{open_sides, open_upper, both_sides};
ghost use Rattle.ps_spoken.specs.Bounds.{status_text, stopped_object, upper_object};

use crate::cause::write_cause;
use crate::details::{Details, SideDetails};
use crate::json_details::write_beneath;
use crate::numbers::{append, fraction, high, low};
use crate::reached::Reached;
use ps_answer::{Cause, SideAnswer};
use ps_frac::Fraction;
use ps_io::NoMemory;
use ps_problem::Problem;
use std::alloc::Global;
use std::cmp::Ordering;

// Writes the exact value of a bound.
#[tactic(auto, unfolding(crate::specs::Bounds::exact_text))]
fn write_exact(out: &mut Vec<u8>, value: &Fraction) -> Result<(), NoMemory>
    ensures { Says result out.old.items out.new.items (exact_text value.now) }
{
    append(out, b"{\"exact\":\"")?;
    fraction(out, value)?;
    append(out, b"\",\"decimal\":\"")
}

// Writes why a side is open, up to what is known of it.
#[tactic(auto, unfolding(crate::specs::Bounds::stopped_object))]
fn write_stopped(out: &mut Vec<u8>, cause: &Cause) -> Result<(), NoMemory>
    ensures { Says result out.old.items out.new.items (stopped_object cause.now) }
{
    append(out, b"{\"exact\":null,\"decimal\":null,\"why\":\"")?;
    write_cause(out, cause)?;
    append(out, b"\",\"proved\":\"")
}

// Writes the least value that is reached, or null.
#[tactic(auto, unfolding(crate::specs::Bounds::least_object))]
fn write_least(out: &mut Vec<u8>, reached: &Option<Reached>, digits: u32) -> Result<(), NoMemory>
    requires some { 0 < digits }
    requires few { digits ≤ MOST_DIGITS }
    ensures { Puts result out.old out.new (least_object digits reached.now) }
{
    match reached {
        Some(known) => {
            write_exact(out, &known.least)?;
            high(out, &known.least, digits)?;
            append(out, b"\"}")
        }
        None => append(out, b"null"),
    }
}

// Writes the greatest value that is reached, or null.
#[tactic(auto, unfolding(crate::specs::Bounds::greatest_object))]
fn write_greatest(out: &mut Vec<u8>, reached: &Option<Reached>, digits: u32) -> Result<(), NoMemory>
    requires some { 0 < digits }
    requires few { digits ≤ MOST_DIGITS }
    ensures { Puts result out.old out.new (greatest_object digits reached.now) }
{
    match reached {
        Some(known) => {
            write_exact(out, &known.greatest)?;
            low(out, &known.greatest, digits)?;
            append(out, b"\"}")
        }
        None => append(out, b"null"),
    }
}

// Writes the object of a lower side that is open.
#[tactic(auto, unfolding(crate::specs::Bounds::open_lower))]
fn write_open_lower(
    out: &mut Vec<u8>,
    cause: &Cause,
    reached: &Option<Reached>,
    digits: u32,
) -> Result<(), NoMemory>
    requires some { 0 < digits }
    requires few { digits ≤ MOST_DIGITS }
    ensures { Puts result out.old out.new
        (open_lower digits cause.now reached.now) }
{
    write_stopped(out, cause)?;
    append(out, b"0\",\"reached\":")?;
    write_least(out, reached, digits)?;
    append(out, b"}")
}

// Writes the object of an upper side that is open.
#[tactic(auto, unfolding(crate::specs::Bounds::open_upper))]
fn write_open_upper(
    out: &mut Vec<u8>,
    cause: &Cause,
    reached: &Option<Reached>,
    digits: u32,
) -> Result<(), NoMemory>
    requires some { 0 < digits }
    requires few { digits ≤ MOST_DIGITS }
    ensures { Puts result out.old out.new
        (open_upper digits cause.now reached.now) }
{
    write_stopped(out, cause)?;
    append(out, b"1\",\"reached\":")?;
    write_greatest(out, reached, digits)?;
    append(out, b"}")
}

// Writes what stands behind a bound's decimal.
#[tactic(auto, unfolding(crate::specs::Bounds::end_text))]
fn write_end(
    alloc: Global,
    out: &mut Vec<u8>,
    problem: &Problem,
    told: &SideDetails,
) -> Result<(), NoMemory>
    ensures { Says result out.old.items out.new.items (end_text problem.now told.now) }
{
    append(out, b"\",\"why\":null")?;
    write_beneath(alloc, out, problem, told)?;
    append(out, b"}")
}

// Writes the object of a lower bound.
#[tactic(auto, unfolding(crate::specs::Bounds::lower_object))]
fn write_lower(
    alloc: Global,
    out: &mut Vec<u8>,
    problem: &Problem,
    side: &SideAnswer,
    told: &Details,
    digits: u32,
) -> Result<(), NoMemory>
    requires some { 0 < digits }
    requires few { digits ≤ MOST_DIGITS }
    ensures { Puts result out.old out.new
        (lower_object digits problem.now side.now told.now) }
{
    match side {
        SideAnswer::Bound { value, .. } => {
            write_exact(out, value)?;
            low(out, value, digits)?;
            write_end(alloc, out, problem, &told.lower)
        }
        SideAnswer::Open(cause) => write_open_lower(out, cause, &told.reached, digits),
    }
}

// Writes the object of an upper bound.
#[tactic(auto, unfolding(crate::specs::Bounds::upper_object))]
fn write_upper(
    alloc: Global,
    out: &mut Vec<u8>,
    problem: &Problem,
    side: &SideAnswer,
    told: &Details,
    digits: u32,
) -> Result<(), NoMemory>
    requires some { 0 < digits }
    requires few { digits ≤ MOST_DIGITS }
    ensures { Puts result out.old out.new
        (upper_object digits problem.now side.now told.now) }
{
    match side {
        SideAnswer::Bound { value, .. } => {
            write_exact(out, value)?;
            high(out, value, digits)?;
            write_end(alloc, out, problem, &told.upper)
        }
        SideAnswer::Open(cause) => write_open_upper(out, cause, &told.reached, digits),
    }
}

// Writes whether both bounds are one value.
#[tactic(auto, unfolding(crate::specs::Bounds::status_text))]
fn write_status(out: &mut Vec<u8>, lower: &SideAnswer, upper: &SideAnswer) -> Result<(), NoMemory>
    ensures { Says result out.old.items out.new.items (status_text lower.now upper.now) }
{
    match (lower, upper) {
        (SideAnswer::Bound { value: least, .. }, SideAnswer::Bound { value: most, .. }) => {
            match least.cmp(most) {
                Ordering::Equal => append(out, b"one value"),
                Ordering::Less | Ordering::Greater => append(out, b"bounds"),
            }
        }
        _ => append(out, b"bounds"),
    }
}

// Writes both sides of a query.
#[tactic(auto, unfolding(crate::specs::Bounds::both_sides))]
fn write_sides(
    alloc: Global,
    out: &mut Vec<u8>,
    problem: &Problem,
    lower: &SideAnswer,
    upper: &SideAnswer,
    told: &Details,
    digits: u32,
) -> Result<(), NoMemory>
    requires some { 0 < digits }
    requires few { digits ≤ MOST_DIGITS }
    ensures { Puts result out.old out.new
        (both_sides digits problem.now lower.now upper.now told.now) }
{
    write_lower(alloc, out, problem, lower, told, digits)?;
    append(out, b",\"upper\":")?;
    write_upper(alloc, out, problem, upper, told, digits)?;
    append(out, b"}")
}

/// Writes the members of a query with bounds, from its status on.
pub fn write_bounds(
    alloc: Global,
    out: &mut Vec<u8>,
    problem: &Problem,
    lower: &SideAnswer,
    upper: &SideAnswer,
    told: &Details,
    digits: u32,
) -> Result<(), NoMemory>
    requires some { 0 < digits }
    requires few { digits ≤ MOST_DIGITS }
    ensures { Puts result out.old out.new
        (two_bounds digits problem.now lower.now upper.now told.now) }
{
    write_status(out, lower, upper)?;
    append(out, b"\",\"why\":null,\"lower\":")?;
    write_sides(alloc, out, problem, lower, upper, told, digits)
}

// Writes both sides of a query that is open.
#[tactic(auto, unfolding(crate::specs::Bounds::open_sides))]
fn write_open_sides(
    out: &mut Vec<u8>,
    cause: &Cause,
    reached: &Option<Reached>,
    digits: u32,
) -> Result<(), NoMemory>
    requires some { 0 < digits }
    requires few { digits ≤ MOST_DIGITS }
    ensures { Puts result out.old out.new
        (open_sides digits cause.now reached.now) }
{
    write_open_lower(out, cause, reached, digits)?;
    append(out, b",\"upper\":")?;
    write_open_upper(out, cause, reached, digits)?;
    append(out, b"}")
}

/// Writes the members of a query that is open, from its status on.
#[tactic(auto, unfolding(crate::specs::Bounds::open_members))]
pub fn write_open(
    out: &mut Vec<u8>,
    cause: &Cause,
    reached: &Option<Reached>,
    digits: u32,
) -> Result<(), NoMemory>
    requires some { 0 < digits }
    requires few { digits ≤ MOST_DIGITS }
    ensures { Puts result out.old out.new
        (open_members digits cause.now reached.now) }
{
    append(out, b"open\",\"why\":\"")?;
    write_cause(out, cause)?;
    append(out, b"\",\"lower\":")?;
    write_open_sides(out, cause, reached, digits)
}
