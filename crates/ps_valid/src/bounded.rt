//! The check of a bound: a value on one side of a query, with its model and its dual.
ghost use Rattle.std.specs.Prelude.{IfOk};
ghost use Rattle.ps_problem.specs.Problems.{HasNodes};
ghost use Rattle.ps_claims.specs.Claims.{Bounded};
ghost use Rattle.ps_claims.specs.Certificates.{IsSmallDual};
ghost use Rattle.ps_valid.specs.Judged.{FindsBy};
ghost use Rattle.ps_valid.specs.Limits.{IsSmallModel};

use crate::meeting::weight_given;
use crate::modelled::first_against;
use crate::quotient::is_quotient;
use crate::refuting::first_in_dual;
use crate::truth::{evaluate, weight_of};
use crate::weighing::has_wrong_shape;
use ps_answer::{Dual, Model};
use ps_claims::{ClaimKind, Reason};
use ps_frac::Fraction;
use ps_io::NoMemory;
use ps_problem::{Problem, Query};
use std::alloc::Global;

/// The first reason against a bound of a query, or none where it is tight: a distribution that
/// meets each bound of the problem gives the evidence positive probability and the query the value,
/// and the dual shows that no such distribution gives it less (`Lower`) or more (`Upper`). Model
/// and dual are one claim: the dual's shape is looked at with the model's.
pub fn check_bound(
    alloc: Global,
    problem: &Problem,
    kind: ClaimKind,
    query: &Query,
    value: &Fraction,
    model: &Model,
    dual: &Dual,
) -> Result<Option<Reason>, NoMemory>
    requires query { HasNodes problem.now.nodes query.now.formula query.now.given query.now.both }
    requires model { IsSmallModel model.now }
    requires dual { IsSmallDual dual.now }
    ensures { IfOk result
        (FindsBy problem.now (Bounded kind query.now value.now) model.now dual.now) }
{
    if has_wrong_shape(problem, model) {
        return Ok(Some(Reason::WrongShape));
    }
    if dual.rows.len() != problem.bounds() as usize {
        return Ok(Some(Reason::WrongShape));
    }
    let valued = evaluate(alloc, problem.formulas(), model.worlds.as_slice())?;
    if let Some(reason) = first_against(problem, model, &valued) {
        return Ok(Some(reason));
    }
    let evidence = weight_given(&valued, model.total, query.given);
    if evidence == 0 {
        return Ok(Some(Reason::EvidenceZero));
    }
    if !is_quotient(value, weight_of(&valued, query.both), evidence) {
        return Ok(Some(Reason::ValueMissed));
    }
    first_in_dual(
        alloc,
        problem,
        kind,
        query.given,
        query.both,
        Some(*value),
        dual,
    )
}
