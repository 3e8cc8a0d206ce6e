//! What is reached of a query that is open.
ghost use Rattle.std.specs.Prelude.{IfOk, IfSome};
ghost use Rattle.ps_problem.specs.Problems.{HasNodes};
ghost use Rattle.ps_frac.specs.Decimals.{HasDecimals};
ghost use Rattle.ps_ask.specs.Reached.{IsReachedAsTold};
ghost use Rattle.ps_ask.specs.Known.{IsBoundAt, IsModelFor, IsRightFor, KeepsKnownSides};

use crate::range::with_value;
use crate::values::value_in;
use ps_answer::{Model, QueryAnswer, SideAnswer};
use ps_frac::{Fraction, has_decimals};
use ps_io::NoMemory;
use ps_problem::{Problem, Query};
use ps_spoken::Reached;
use std::alloc::Global;

// Whether a side is open.
fn is_open(side: &SideAnswer) -> bool {
    matches!(side, SideAnswer::Open(_))
}

// Whether a query, or a side of it, is open.
fn has_open(answer: &QueryAnswer) -> bool {
    match answer {
        QueryAnswer::Bounds { lower, upper, .. } => is_open(lower) || is_open(upper),
        QueryAnswer::Impossible(_) => false,
        QueryAnswer::Open(_) => true,
    }
}

// The bound of a side, where it is one that has decimals: its distribution reaches it.
fn bound_of(side: &SideAnswer) -> Option<Fraction>
    ensures bound { IfSome result (IsBoundAt side.now) }
    ensures decimals { IfSome result HasDecimals }
{
    match side {
        SideAnswer::Bound { value, .. } if has_decimals(value) => Some(*value),
        SideAnswer::Bound { .. } | SideAnswer::Open(_) => None,
    }
}

// What is reached, with the bounds that are known of the query itself.
#[tactic(auto, using(crate::proofs::ReachedLaws::with_sides))]
fn with_known_sides(reached: Option<Reached>, answer: &QueryAnswer) -> Option<Reached>
    ensures { KeepsKnownSides reached answer.now result }
{
    match answer {
        QueryAnswer::Bounds { lower, upper, .. } => {
            with_value(with_value(reached, bound_of(lower)), bound_of(upper))
        }
        QueryAnswer::Impossible(_) | QueryAnswer::Open(_) => reached,
    }
}

/// What is reached of a query that is open, or of which a side is: the least and the greatest value
/// that it has in the distributions that are known of the verdict and of its own bounds.
#[tactic(auto, using(crate::proofs::ReachedLaws::known_sides))]
pub(crate) fn reached_of(
    alloc: Global,
    problem: &Problem,
    query: Query,
    answer: &QueryAnswer,
    model: &Model,
) -> Result<Option<Reached>, NoMemory>
    requires query { HasNodes problem.now.nodes query.formula query.given query.both }
    requires model { IsModelFor problem.now model.now }
    requires right { IsRightFor problem.now query answer.now }
    ensures { IfOk result (IsReachedAsTold problem.now query) }
{
    if !has_open(answer) {
        return Ok(None);
    }
    let value = value_in(alloc, problem, query, model)?;
    Ok(with_known_sides(with_value(None, value), answer))
}
