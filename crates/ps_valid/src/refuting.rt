//! The check of a dual.
ghost use Rattle.std.specs.Prelude.{◌≡◌, ◌<◌, ◌↔◌, IfOk, IfSome, IsTrue, length};
ghost use Rattle.ps_problem.specs.Problems.{bounds_in};
ghost use Rattle.ps_claims.specs.Claims.{Excluded};
ghost use Rattle.ps_claims.specs.Faults.{HasHead};
ghost use Rattle.ps_claims.specs.Certificates.{dual_of, HasQuery, IsSmallDual};
ghost use Rattle.ps_valid.specs.Aims.{aim_of};
ghost use Rattle.ps_valid.specs.Judged.{FindsReason};
ghost use Rattle.ps_valid.specs.DualTests.{FindsInDual, FindsInRun};

use crate::quotient::is_quotient;
use crate::signs::first_wrong_sign;
use crate::steps::{checker_of, first_refused};
use ps_answer::Dual;
use ps_claims::{ClaimKind, Reason, combination};
use ps_frac::Fraction;
use ps_io::NoMemory;
use ps_problem::Problem;
use std::alloc::Global;

// Whether head over top is the value, or where there is none the top is 0 and the head above it.
fn has_head(value: Option<Fraction>, dual: &Dual) -> bool
    requires { IsSmallDual dual.now }
    ensures { IsTrue result ↔ HasHead value (dual_of dual.now) }
{
    match value {
        None => dual.top == 0 && dual.head >= 1,
        Some(value) => dual.top >= 1 && is_quotient(&value, dual.head, dual.top),
    }
}

// The first reason against the refutation of a dual.
#[tactic(auto, using(crate::proofs::DualFaults::run_refutes, crate::proofs::DualFaults::run_open))]
fn first_in_run(
    alloc: Global,
    problem: &Problem,
    kind: ClaimKind,
    given: Option<u32>,
    both: u32,
    dual: &Dual,
) -> Result<Option<Reason>, NoMemory>
    requires given { IfSome given (λ g. g < length problem.now.nodes) }
    requires both { HasQuery kind → both < length problem.now.nodes }
    requires rows { length dual.now.rows ≡ length (bounds_in problem.now.sentences) }
    requires small { IsSmallDual dual.now }
    ensures { IfOk result (FindsInRun problem.now (aim_of kind given both) (dual_of dual.now)) }
{
    let sum = combination(alloc, problem, kind, given, both, dual)?;
    let mut checker = checker_of(alloc, problem, &sum)?;
    if let Some((step, why)) = first_refused(&mut checker, dual.steps.as_slice())? {
        return Ok(Some(Reason::StepRefused { step, why }));
    }
    if checker.refuted() {
        Ok(None)
    } else {
        Ok(Some(Reason::NotRefuted))
    }
}

/// The first reason against a dual with a multiplier for each bound, or none.
#[tactic(auto, using(crate::proofs::DualFaults::judged_dual, crate::proofs::DualFaults::sign_found))]
pub fn first_in_dual(
    alloc: Global,
    problem: &Problem,
    kind: ClaimKind,
    given: Option<u32>,
    both: u32,
    value: Option<Fraction>,
    dual: &Dual,
) -> Result<Option<Reason>, NoMemory>
    requires given { IfSome given (λ g. g < length problem.now.nodes) }
    requires both { HasQuery kind → both < length problem.now.nodes }
    requires rows { length dual.now.rows ≡ length (bounds_in problem.now.sentences) }
    requires small { IsSmallDual dual.now }
    ensures { IfOk result
        (FindsInDual problem.now (aim_of kind given both) value (dual_of dual.now)) }
{
    if !has_head(value, dual) {
        return Ok(Some(Reason::HeadWrong));
    }
    if let Some(bound) = first_wrong_sign(problem.rows(), dual.rows.as_slice()) {
        return Ok(Some(Reason::MultiplierSign { bound }));
    }
    first_in_run(alloc, problem, kind, given, both, dual)
}

/// The first reason against a dual that is to show that no distribution which meets each bound
/// gives the evidence positive probability, or none where it does.
#[tactic(auto, using(crate::proofs::DualFaults::judged_excluded, crate::proofs::DualFaults::rows_wrong))]
pub fn check_dual(
    alloc: Global,
    problem: &Problem,
    given: Option<u32>,
    dual: &Dual,
) -> Result<Option<Reason>, NoMemory>
    requires given { IfSome given (λ g. g < length problem.now.nodes) }
    requires limits { IsSmallDual dual.now }
    ensures judged { IfOk result (FindsReason problem.now (Excluded given (dual_of dual.now))) }
{
    if dual.rows.len() != problem.bounds() as usize {
        return Ok(Some(Reason::WrongShape));
    }
    first_in_dual(alloc, problem, ClaimKind::Nothing, given, 0, None, dual)
}
