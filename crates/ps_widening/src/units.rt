//! The common unit of rows.
ghost use Rattle.std.specs.Prelude.{◌≡◌, ◌≤◌, ◌<◌, ◌+◌, ◌*◌, All, IfOk, length, unsigned_abs};
ghost use Rattle.ps_meaning.specs.Gcd.{gcd as gcd_of, lcm};
ghost use Rattle.ps_problem.specs.declared.limits.TheConstants.{GREATEST_SCALE, MOST_SIZES};
ghost use Rattle.ps_problem.specs.declared.limits.TheConstants.{MOST_BOUNDS};
ghost use Rattle.ps_problem.specs.Problems.{terms_size};
ghost use Rattle.ps_problem.specs.Rows.{row_size};
ghost use Rattle.ps_problem.specs.Scales.{scale_within};
ghost use Rattle.ps_widening.specs.Measured.{IsMeasured};
ghost use Rattle.ps_widening.specs.Units.{TellsUnit, factor, first_wide, is_wide, unscaled};

use ps_problem::{GREATEST_SCALE, MOST_SIZES, Problem, Row};

fn gcd(a: u32, b: u32) -> u32
    ensures value { result ≡ gcd_of a b }
    ensures positive { 0 < b → 0 < result }
{
    let mut x = a;
    let mut y = b;
    while y != 0 {
        let rest = x % y;
        x = y;
        y = rest;
    }
    x
}

// The least common multiple of two units, if it is within the limit.
fn multiple_of(unit: u32, other: u32) -> Option<u32>
    requires { 0 < other }
    ensures { result ≡ scale_within (lcm unit other) }
{
    let wide = u64::from(unit / gcd(unit, other)) * u64::from(other);
    if wide > u64::from(GREATEST_SCALE) {
        return None;
    }
    Some(wide as u32)
}

/// The common unit of rows, or the number of the first row up to which it is past its limit.
pub(crate) fn common_unit(rows: &[Row]) -> Result<u32, u32>
    requires rows { All IsMeasured rows.now }
    requires few { length rows.now ≤ MOST_BOUNDS }
    ensures tells { TellsUnit rows.now result }
    ensures some { IfOk result (λ u. 0 < u) }
    ensures small { IfOk result (λ u. u ≤ GREATEST_SCALE) }
{
    let mut unit = 1;
    for i in 0..rows.len() {
        match multiple_of(unit, rows[i].unit) {
            Some(more) => unit = more,
            None => return Err(i as u32 + 1),
        }
    }
    Ok(unit)
}

// The sum of the sizes of a row's numbers.
fn size_of(row: &Row) -> u64
    requires { row_size row.now ≤ MOST_SIZES }
    ensures { result ≡ row_size row.now }
{
    let mut sum = row.base.unsigned_abs();
    for term in row.terms.as_slice() {
        sum += term.1.unsigned_abs();
    }
    sum
}

// Whether the sizes of a row's numbers, counted in a unit, are past their limit.
fn is_wide(unit: u32, row: &Row) -> bool
    requires row { IsMeasured row.now }
    requires unit { unit ≤ GREATEST_SCALE }
    ensures { result ≡ is_wide unit row.now }
{
    u64::from(unit / row.unit) * size_of(row) > MOST_SIZES
}

// The number of the first row whose sizes are past their limit.
fn first_wide(unit: u32, rows: &[Row]) -> Option<u32>
    requires rows { All IsMeasured rows.now }
    requires few { length rows.now ≤ MOST_BOUNDS }
    requires unit { unit ≤ GREATEST_SCALE }
    ensures { result ≡ first_wide 1 unit rows.now }
{
    for i in 0..rows.len() {
        if is_wide(unit, &rows[i]) {
            return Some(i as u32 + 1);
        }
    }
    None
}

/// The number of the bound at which a problem's bounds have no common unit within the limits, if
/// there is one: up to which the least common multiple of their denominators and scales is past its
/// limit, or else whose numbers, counted in that unit, are past theirs.
pub fn unscaled(problem: &Problem) -> Option<u32>
    ensures { result ≡ unscaled problem.now }
{
    let rows = problem.rows();
    match common_unit(rows) {
        Err(bound) => Some(bound),
        Ok(unit) => first_wide(unit, rows),
    }
}
