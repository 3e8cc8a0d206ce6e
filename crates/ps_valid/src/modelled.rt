//! The check of a model that is to show that bounds are consistent.
ghost use Rattle.std.specs.Prelude.{◌≤◌, length, All, IfOk};
ghost use Rattle.ps_problem.specs.Rows.{IsRow};
ghost use Rattle.ps_problem.specs.declared.limits.TheConstants.{MOST_BOUNDS};
ghost use Rattle.ps_claims.specs.Claims.{Modelled};
ghost use Rattle.ps_claims.specs.Certificates.{entries, model_of};
ghost use Rattle.ps_valid.specs.Judged.{FindsReason, FindsReasonOver};
ghost use Rattle.ps_valid.specs.Limits.{IsSmallModel};
ghost use Rattle.ps_valid.specs.Valuations.{IsTableOf};
ghost use Rattle.ps_valid.specs.Tests.{FindsAgainst, FindsAgainstOver};

use crate::meeting::missed_row;
use crate::truth::{Valuation, evaluate};
use crate::weighing::{first_among, has_too_many, has_wrong_shape, has_wrong_total};
use ps_answer::Model;
use ps_claims::Reason;
use ps_io::NoMemory;
use ps_problem::{Problem, Row};
use std::alloc::Global;

// The first reason against a model whose worlds have the problem's atoms, by these rows, or none;
// the valuations have the truth of each node in its worlds.
#[tactic(auto, using(crate::proofs::ModelFaults::too_many_over, crate::proofs::ModelFaults::entry_over, crate::proofs::ModelFaults::total_over, crate::proofs::ModelFaults::sound_over, crate::proofs::ModelFaults::missed_over))]
fn first_against_over(
    problem: &Problem,
    rows: &[Row],
    model: &Model,
    valued: &[Valuation],
) -> Option<Reason>
    requires rows { All (IsRow problem.now.nodes) rows.now }
    requires few { length rows.now ≤ MOST_BOUNDS }
    requires table { IsTableOf problem.now.nodes (entries model.now.worlds) valued.now }
    requires small { IsSmallModel model.now }
    ensures { FindsAgainstOver problem.now rows.now (model_of model.now) result }
{
    if has_too_many(rows, model) {
        return Some(Reason::TooManyWorlds);
    }
    if let Some(reason) = first_among(model.worlds.as_slice()) {
        return Some(reason);
    }
    if has_wrong_total(model) {
        return Some(Reason::TotalWrong);
    }
    match missed_row(problem, rows, model, valued) {
        None => None,
        Some(bound) => Some(Reason::BoundMissed { bound }),
    }
}

/// The first reason against a model whose worlds have the problem's atoms, or none; the
/// valuations have the truth of each node in its worlds.
#[tactic(auto, using(crate::proofs::ModelFaults::against_all))]
pub fn first_against(problem: &Problem, model: &Model, valued: &[Valuation]) -> Option<Reason>
    requires table { IsTableOf problem.now.nodes (entries model.now.worlds) valued.now }
    requires small { IsSmallModel model.now }
    ensures { FindsAgainst problem.now (model_of model.now) result }
{
    first_against_over(problem, problem.rows(), model, valued)
}

/// The first reason against a model that is to show that bounds with these rows over a problem's
/// nodes are consistent, or none where it does: it is a distribution that meets each bound, on at
/// most one world more than there are bounds, and its total is right.
#[tactic(auto, using(crate::proofs::ModelFaults::judged_over, crate::proofs::ModelFaults::shape_over))]
pub fn check_model_over(
    alloc: Global,
    problem: &Problem,
    rows: &[Row],
    model: &Model,
) -> Result<Option<Reason>, NoMemory>
    requires rows { All (IsRow problem.now.nodes) rows.now }
    requires few { length rows.now ≤ MOST_BOUNDS }
    requires limits { IsSmallModel model.now }
    ensures judged { IfOk result (FindsReasonOver problem.now rows.now model.now) }
{
    if has_wrong_shape(problem, model) {
        return Ok(Some(Reason::WrongShape));
    }
    let valued = evaluate(alloc, problem.formulas(), model.worlds.as_slice())?;
    Ok(first_against_over(problem, rows, model, &valued))
}

/// The first reason against a model that is to show that a problem is consistent, or none where it
/// does: it is a distribution that meets each bound, on at most one world more than there are
/// bounds, and its total is right.
#[tactic(auto, using(crate::proofs::ModelFaults::judged_all))]
pub fn check_model(
    alloc: Global,
    problem: &Problem,
    model: &Model,
) -> Result<Option<Reason>, NoMemory>
    requires limits { IsSmallModel model.now }
    ensures judged { IfOk result (FindsReason problem.now (Modelled (model_of model.now))) }
{
    check_model_over(alloc, problem, problem.rows(), model)
}
