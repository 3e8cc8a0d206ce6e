//! What is told beneath the answer to a query.
ghost use Rattle.std.specs.Prelude.{◌≡◌, ◌<◌, ◌≤◌, None};
ghost use Rattle.ps_frac.specs.declared.limits.TheConstants.{MOST_DIGITS};
ghost use Rattle.ps_spoken.specs.Details.{beneath_side, beneath_text, example_told, no_details};
ghost use Rattle.ps_spoken.specs.Details.{support_told};
ghost use Rattle.ps_spoken.specs.Numbers.{Puts};

use crate::examples::write_example;
use crate::numbers::append;
use crate::reached::Reached;
use crate::supports::write_support;
use ps_io::NoMemory;
use ps_problem::Problem;
use ps_support::{BoundSide, Example, Support};
use std::alloc::Global;

/// What is told of a bound that is proved.
#[derive(Drop)]
pub struct SideDetails {
    /// The sentences on which it rests, where they are asked for.
    pub support: Option<Support>,
    /// A distribution that reaches it, where one is asked for.
    pub example: Option<Example>,
}

/// What is told beneath the answer to a query.
#[derive(Drop)]
pub struct Details {
    /// What is reached of the query, where it is open.
    pub reached: Option<Reached>,
    /// What is told of its lower bound.
    pub lower: SideDetails,
    /// What is told of its upper bound.
    pub upper: SideDetails,
}

impl SideDetails {
    /// Nothing is told.
    pub fn none() -> SideDetails
        ensures support { result.support ≡ None }
        ensures example { result.example ≡ None }
    {
        SideDetails {
            support: None,
            example: None,
        }
    }
}

impl Details {
    /// Nothing is told.
    pub fn none() -> Details
        ensures { result ≡ no_details }
    {
        Details {
            reached: None,
            lower: SideDetails::none(),
            upper: SideDetails::none(),
        }
    }
}

// Writes the sentences on which a bound rests, where they are told.
fn write_support_told(
    alloc: Global,
    out: &mut Vec<u8>,
    problem: &Problem,
    side: BoundSide,
    support: &Option<Support>,
) -> Result<(), NoMemory>
    ensures { Puts result out.old out.new (support_told problem.now side support.now) }
{
    match support {
        Some(known) => write_support(alloc, out, problem, side, known),
        None => append(out, b""),
    }
}

// Writes a distribution that reaches it, where one is told.
fn write_example_told(
    out: &mut Vec<u8>,
    problem: &Problem,
    side: BoundSide,
    example: &Option<Example>,
    digits: u32,
) -> Result<(), NoMemory>
    requires some { 0 < digits }
    requires few { digits ≤ MOST_DIGITS }
    ensures { Puts result out.old out.new
        (example_told digits problem.now side example.now) }
{
    match example {
        Some(known) => write_example(out, problem, side, known, digits),
        None => append(out, b""),
    }
}

// Writes what is told of a bound.
#[tactic(auto, unfolding(crate::specs::Details::beneath_side))]
fn write_beneath_side(
    alloc: Global,
    out: &mut Vec<u8>,
    problem: &Problem,
    side: BoundSide,
    told: &SideDetails,
    digits: u32,
) -> Result<(), NoMemory>
    requires some { 0 < digits }
    requires few { digits ≤ MOST_DIGITS }
    ensures { Puts result out.old out.new
        (beneath_side digits problem.now side told.now) }
{
    write_support_told(alloc, out, problem, side, &told.support)?;
    write_example_told(out, problem, side, &told.example, digits)
}

/// Writes what is told of the bounds of a query, beneath them.
#[tactic(auto, unfolding(crate::specs::Details::beneath_text))]
pub(crate) fn write_beneath(
    alloc: Global,
    out: &mut Vec<u8>,
    problem: &Problem,
    told: &Details,
    digits: u32,
) -> Result<(), NoMemory>
    requires some { 0 < digits }
    requires few { digits ≤ MOST_DIGITS }
    ensures { Puts result out.old out.new (beneath_text digits problem.now told.now) }
{
    write_beneath_side(alloc, out, problem, BoundSide::Lower, &told.lower, digits)?;
    write_beneath_side(alloc, out, problem, BoundSide::Upper, &told.upper, digits)
}
