//! What is found against a claim before the steps of its dual.
ghost use Rattle.std.specs.Prelude.{◌≡◌, ◌<◌, Some, IfOk, IfSome, option_copied, length};
ghost use Rattle.ps_problem.specs.Problems.{bounds_in};
ghost use Rattle.ps_claims.specs.Certificates.{dual_of, IsSmallDual};
ghost use Rattle.ps_claims.specs.Claims.{Excluded};
ghost use Rattle.ps_check.specs.Subjects.{query_at};
ghost use Rattle.ps_check.specs.Found.{FindsFor, Finds, HasRowsIfOpen, IsAskedBy};
ghost use Rattle.ps_check.specs.Found.{tight, IsCheckerFor, IsQueryOf};

use crate::small_model::SmallModel;
use crate::subject::{Subject, kind_of};
use ps_answer::Dual;
use ps_claims::{ClaimKind, Reason, combination};
use ps_frac::Fraction;
use ps_io::NoMemory;
use ps_pbcheck::Checker;
use ps_problem::{Problem, Query};
use ps_valid::{check_bound, check_dual};
use std::alloc::Global;

// The query of this number, from 1.
fn query_of(problem: &Problem, number: u32) -> Option<&Query>
    ensures query { option_copied result ≡ query_at problem.now.queries number }
    ensures nodes { IfSome (option_copied result) (IsQueryOf problem.now) }
{
    let queries = problem.queries().as_slice();
    match (number as usize).checked_sub(1) {
        Some(at) if at < queries.len() => Some(&queries[at]),
        _ => None,
    }
}

// The first reason against the dual of impossible evidence.
fn against_evidence(
    alloc: Global,
    problem: &Problem,
    given: Option<u32>,
    dual: &Dual,
) -> Result<Option<Reason>, NoMemory>
    requires given { IfSome given (λ g. g < length problem.now.nodes) }
    requires dual { IsSmallDual dual.now }
    ensures told { IfOk result
        (Finds problem.now (Some (Excluded given (dual_of dual.now)))) }
    ensures rows { IfOk result (HasRowsIfOpen problem.now (dual_of dual.now)) }
{
    check_dual(alloc, problem, given, dual)
}

// The first reason against a value as a query's bound.
fn against_value(
    alloc: Global,
    problem: &Problem,
    kind: ClaimKind,
    query: &Query,
    value: &Fraction,
    model: &SmallModel,
    dual: &Dual,
) -> Result<Option<Reason>, NoMemory>
    requires query { IsQueryOf problem.now query.now }
    requires dual { IsSmallDual dual.now }
    ensures told { IfOk result
        (Finds problem.now (tight kind query.now value.now model.now dual.now)) }
    ensures rows { IfOk result (HasRowsIfOpen problem.now (dual_of dual.now)) }
{
    match model.within() {
        Some(model) => check_bound(alloc, problem, kind, query, value, model, dual),
        None => Ok(Some(Reason::TooManyWorlds)),
    }
}

/// The first reason against a model and a dual without steps; where nothing but the want of steps
/// speaks against them, it is `NotRefuted`.
pub(crate) fn first_against(
    alloc: Global,
    problem: &Problem,
    subject: &Subject,
    model: &Option<SmallModel>,
    dual: &Dual,
) -> Result<Option<Reason>, NoMemory>
    requires dual { IsSmallDual dual.now }
    ensures told { IfOk result
        (FindsFor problem.now subject.now model.now dual.now) }
    ensures rows { IfOk result (HasRowsIfOpen problem.now (dual_of dual.now)) }
{
    match subject {
        Subject::OfVerdict => against_evidence(alloc, problem, None, dual),
        Subject::OfQuery { number } => match query_of(problem, *number) {
            Some(query) => against_evidence(alloc, problem, query.given, dual),
            None => Ok(Some(Reason::WrongShape)),
        },
        Subject::OfSide {
            number,
            upper,
            value,
        } => match (query_of(problem, *number), model) {
            (Some(query), Some(model)) => {
                against_value(alloc, problem, kind_of(*upper), query, value, model, dual)
            }
            _ => Ok(Some(Reason::WrongShape)),
        },
    }
}

// The kind of a claim, the evidence of its query, and the node of formula and evidence together.
fn asked_by(problem: &Problem, subject: &Subject) -> (ClaimKind, (Option<u32>, u32))
    ensures { IsAskedBy problem.now subject.now result }
{
    match subject {
        Subject::OfVerdict => (ClaimKind::Nothing, (None, 0)),
        Subject::OfQuery { number } => match query_of(problem, *number) {
            Some(query) => (ClaimKind::Nothing, (query.given, 0)),
            None => (ClaimKind::Nothing, (None, 0)),
        },
        Subject::OfSide { number, upper, .. } => match query_of(problem, *number) {
            Some(query) => (kind_of(*upper), (query.given, query.both)),
            None => (ClaimKind::Nothing, (None, 0)),
        },
    }
}

/// The checker of the steps that are to come.
pub(crate) fn checker_of(
    alloc: Global,
    problem: &Problem,
    subject: &Subject,
    dual: &Dual,
) -> Result<Checker, NoMemory>
    requires rows { length dual.now.rows ≡ length (bounds_in problem.now.sentences) }
    requires small { IsSmallDual dual.now }
    ensures { IfOk result (IsCheckerFor problem.now subject.now (dual_of dual.now)) }
{
    let (kind, (given, both)) = asked_by(problem, subject);
    let sum = combination(alloc, problem, kind, given, both, dual)?;
    ps_valid::checker_of(alloc, problem, &sum)
}
