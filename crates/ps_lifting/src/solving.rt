//! Exact solutions.
ghost use Rattle.std.specs.Prelude.{◌≡◌, ◌≤◌, ◌^◌, pos, ◌≤ℤ◌, IfOk, IfSome};
ghost use Rattle.ps_lifting.specs.Systems.{Solves, AreSmall};

use crate::checking::solves;
use crate::inverse::Inverse;
use crate::lifting::lift;
use crate::number::{LIMIT, Number};
use crate::reconstruction::denominator_of;
use crate::solution::Solution;
use ps_io::{List, NoMemory};
use std::alloc::Global;

// A product within the limit.
fn product_within(a: u128, b: u128) -> Option<u128>
    ensures { IfSome result (λ n. n ≤ 2 ^ 90) }
{
    match a.checked_mul(b) {
        Some(n) if n <= LIMIT => Some(n),
        _ => None,
    }
}

// A denominator that makes the number small, besides those before it.
fn with_number(denominator: u128, x: Number) -> Option<u128>
    requires { denominator ≤ 2 ^ 90 }
    ensures { IfSome result (λ n. n ≤ 2 ^ 90) }
{
    let z = x.times(denominator);
    if z.small().is_some() {
        return Some(denominator);
    }
    product_within(denominator, denominator_of(z)?)
}

// A denominator that makes all numbers small.
fn common_denominator(numbers: &[Number]) -> Option<u128>
    ensures { IfSome result (λ n. n ≤ 2 ^ 90) }
{
    let mut denominator = 1;
    for x in numbers {
        denominator = with_number(denominator, *x)?;
    }
    Some(denominator)
}

// The numerators over this denominator, if they are small.
fn numerators_over(
    alloc: Global,
    numbers: &[Number],
    denominator: u128,
) -> Result<Option<List<i128>>, NoMemory>
    ensures { IfOk result (λ o. IfSome o AreSmall) }
{
    let mut found = List::new(alloc);
    for x in numbers {
        match x.times(denominator).small() {
            Some(numerator) => found.push(numerator)?,
            None => return Ok(None),
        }
    }
    Ok(Some(found))
}

// A solution that was tested.
fn verified_solution(
    rows: &[List<i64>],
    right: &[i64],
    numerators: List<i128>,
    denominator: i128,
) -> Option<Solution>
    requires { AreSmall numerators }
    ensures solved { IfSome result (Solves rows.now right.now) }
    ensures small { IfSome result (λ s. AreSmall s.numerators) }
    ensures denominator { IfSome result (λ s. s.denominator ≡ denominator) }
{
    if denominator >= 1 && solves(rows, right, numerators.as_slice(), denominator) {
        Some(Solution {
            numerators,
            denominator,
        })
    } else {
        None
    }
}

/// The solution of a system with these rows of coefficients and a right side for each row, whose
/// inverse modulo the prime is given. None where numerators or the common denominator pass 2^90,
/// where a number of the test in whole numbers passes 128 bits, and where rows, inverse and right
/// sides don't go together. For `k` rows it takes about `9 * k^2` products.
pub fn solve(
    alloc: Global,
    rows: &[List<i64>],
    inverse: &Inverse,
    right: &[i64],
) -> Result<Option<Solution>, NoMemory>
    ensures solved { IfOk result (λ o. IfSome o (Solves rows.now right.now)) }
    ensures small { IfOk result (λ o. IfSome o (λ s. AreSmall s.numerators)) }
    ensures denominator { IfOk result (λ o. IfSome o (λ s. s.denominator ≤ℤ pos (2 ^ 90))) }
{
    let numbers = lift(alloc, rows, inverse, right)?;
    let Some(denominator) = common_denominator(numbers.as_slice()) else {
        return Ok(None);
    };
    match numerators_over(alloc, numbers.as_slice(), denominator)? {
        Some(numerators) => Ok(verified_solution(rows, right, numerators, denominator as i128)),
        None => Ok(None),
    }
}
