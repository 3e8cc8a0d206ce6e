ghost use Rattle.std.specs.Prelude.{◌≡◌, IfOk, length};
ghost use Rattle.ps_claims.specs.Certificates.{IsSmallDual};

use crate::problems::{CONDITIONAL, problem};
use ps_answer::Dual;
use ps_claims::{ClaimKind, combination};
use ps_io::{List, NoMemory};
use ps_pb::Lit;
use ps_problem::Problem;
use std::alloc::Global;
use std::test::*;

// Over `P(!a given b) in [1/4, 1/2]; P(!a) >= 1/2;`, where node 0 is `a`, 1 is `!a`, 2 is `b`, 3 is `!a & b`.
fn a_dual(alloc: Global) -> Result<Dual, NoMemory>
    ensures small { IfOk result IsSmallDual }
    ensures rows { IfOk result (λ d. length d.rows ≡ 3) }
{
    let mut rows = List::new(alloc);
    rows.push(5)?;
    rows.push(-7)?;
    rows.push(11)?;
    Ok(Dual {
        top: 3,
        head: 2,
        rows,
        steps: List::new(alloc),
    })
}

// A claim with its condition, the terms of its own, and the base: -11 is that of the third bound, which has no condition.
const CLAIMS: [(ClaimKind, Option<u32>, (i32, i128), i128); 3] = [
    (ClaimKind::Nothing, Some(2), (3, 2), -11),
    (ClaimKind::Lower, None, (3, -3), -9),
    (ClaimKind::Upper, None, (3, 3), -13),
];

// Of each bound: multiplier times denominator at both nodes, less multiplier times numerator at the condition.
const BOUNDS: [(i32, i128); 5] = [(4, 20), (3, -5), (4, -14), (3, 7), (2, 22)];

fn is_term(term: &(Lit, i128), expected: Option<&(i32, i128)>) -> bool {
    match expected {
        Some(row) => term.0.number() == row.0 && term.1 == row.1,
        None => false,
    }
}

fn are_terms(terms: &[(Lit, i128)], first: (i32, i128)) -> bool {
    for (i, term) in terms.iter().enumerate() {
        let expected = if i == 0 {
            Some(&first)
        } else {
            BOUNDS.get(i - 1)
        };
        if !is_term(term, expected) {
            return false;
        }
    }
    true
}

// Whether the combination of a claim is that of the row; the query is the one for `b`.
fn is_combined(
    alloc: Global,
    problem: &Problem,
    dual: &Dual,
    row: &(ClaimKind, Option<u32>, (i32, i128), i128),
) -> bool
    requires small { IsSmallDual dual.now }
    requires rows { length dual.now.rows ≡ 3 }
{
    let (kind, given, first, base) = *row;
    if problem.bounds() != 3 || problem.formulas().len() < 3 {
        return false;
    }
    if let Some(node) = given
        && node != 2
    {
        return false;
    }
    match combination(alloc, problem, kind, given, 2, dual) {
        Ok(sum) => sum.base == base
            && sum.terms.len() == 6
            && are_terms(sum.terms.as_slice(), first),
        Err(_) => false,
    }
}

fn are_combined(alloc: Global, problem: &Problem, dual: &Dual) -> bool
    requires small { IsSmallDual dual.now }
    requires rows { length dual.now.rows ≡ 3 }
{
    for row in &CLAIMS {
        if !is_combined(alloc, problem, dual, row) {
            return false;
        }
    }
    true
}

#[test]
fn terms_stand_in_order(rt: HostRuntime) -> Result<(), Fail> {
    let alloc = rt.alloc();
    let right = match (problem(alloc, CONDITIONAL), a_dual(alloc)) {
        (Some(problem), Ok(dual)) => are_combined(alloc, &problem, &dual),
        _ => false,
    };
    assert!(rt; right);
    Ok(())
}
