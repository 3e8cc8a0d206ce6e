//! The value of a query in a distribution.
ghost use Rattle.std.specs.Prelude.{◌≡◌, ◌≤ℤ◌, ◌*ℤ◌, pos, IfOk, IfSome};
ghost use Rattle.ps_problem.specs.Problems.{HasNodes};
ghost use Rattle.ps_frac.specs.Decimals.{HasDecimals};
ghost use Rattle.ps_ask.specs.Known.{IsModelFor};
ghost use Rattle.ps_ask.specs.Reached.{IsReached};

use crate::weights::{weight_given, weight_of};
use ps_answer::Model;
use ps_frac::{Fraction, has_decimals};
use ps_io::NoMemory;
use ps_problem::{Problem, Query};
use std::alloc::Global;

// A fraction that has decimals; none where the lower number isn't above 0, or the fraction is none.
#[tactic(auto, using(crate::proofs::ValueLaws::quotient_cross))]
fn quotient(over: i128, under: i128) -> Option<Fraction>
    ensures positive { IfSome result (λ x. pos 1 ≤ℤ under) }
    ensures equal { IfSome result (λ x. (over *ℤ pos x.under) ≡ (x.over *ℤ under)) }
    ensures decimals { IfSome result HasDecimals }
{
    if under < 1 || over < 0 {
        return None;
    }
    let value = Fraction::new(over, under);
    if has_decimals(&value) {
        Some(value)
    } else {
        None
    }
}

/// The value of a query in a distribution that meets all sentences. None where the distribution gives
/// the evidence probability 0, or where the value's denominator is greater than an answer prints.
pub fn value_in(
    alloc: Global,
    problem: &Problem,
    query: Query,
    model: &Model,
) -> Result<Option<Fraction>, NoMemory>
    requires query { HasNodes problem.now.nodes query.formula query.given query.both }
    requires model { IsModelFor problem.now model.now }
    ensures { IfOk result (λ o. IfSome o (IsReached problem.now query)) }
{
    let Some(evidence) = weight_given(alloc, problem, model, query.given)? else {
        return Ok(None);
    };
    let Some(both) = weight_of(alloc, problem, model.worlds.as_slice(), query.both)? else {
        return Ok(None);
    };
    Ok(quotient(both, evidence))
}
