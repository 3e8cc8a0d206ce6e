//! Rows in their common unit.
ghost use Rattle.std.specs.Prelude.{◌≡◌, ◌≤◌, ◌<◌, ◌*◌, ◌*ℤ◌, pos, All, IfOk, length, map};
ghost use Rattle.std.specs.Prelude.{unsigned_abs};
ghost use Rattle.ps_problem.specs.declared.limits.TheConstants.{GREATEST_SCALE, MOST_SIZES};
ghost use Rattle.ps_widening.specs.Measured.{IsMeasured};
ghost use Rattle.ps_widening.specs.Units.{IsScaled, scaled_row, scaled_terms};
ghost use Rattle.ps_widening.specs.Common.{IsCommon};

use crate::common_rows::CommonRows;
use crate::units::common_unit;
use ps_io::{List, NoMemory};
use ps_problem::{LinearTerms, Problem, Row};
use std::alloc::Global;

// A number of a row times a factor.
fn times(factor: u32, number: i64) -> i64
    requires factor { factor ≤ GREATEST_SCALE }
    requires number { unsigned_abs number ≤ MOST_SIZES }
    ensures value { result ≡ pos factor *ℤ number }
    ensures size { unsigned_abs result ≤ GREATEST_SCALE * MOST_SIZES }
{
    i64::from(factor) * number
}

// Terms, each number times a factor.
fn scaled_terms(alloc: Global, factor: u32, terms: &[(u32, i64)]) -> Result<LinearTerms, NoMemory>
    requires factor { factor ≤ GREATEST_SCALE }
    requires terms { All (λ t. unsigned_abs t.1 ≤ MOST_SIZES) terms.now }
    ensures { IfOk result (λ r. r ≡ scaled_terms factor terms.now) }
{
    let mut scaled = List::new(alloc);
    for term in terms {
        scaled.push((term.0, times(factor, term.1)))?;
    }
    Ok(scaled)
}

// A row that counts in this unit.
fn scaled_row(alloc: Global, unit: u32, row: &Row) -> Result<Row, NoMemory>
    requires row { IsMeasured row.now }
    requires unit { unit ≤ GREATEST_SCALE }
    ensures { IfOk result (λ r. r ≡ scaled_row unit row.now) }
{
    let factor = unit / row.unit;
    let terms = scaled_terms(alloc, factor, row.terms.as_slice())?;
    Ok(Row {
        side: row.side,
        unit,
        base: times(factor, row.base),
        terms,
    })
}

// Each row in this unit.
fn each_scaled(alloc: Global, unit: u32, rows: &[Row]) -> Result<List<Row>, NoMemory>
    requires rows { All IsMeasured rows.now }
    requires unit { unit ≤ GREATEST_SCALE }
    ensures { IfOk result (λ r. r ≡ map (scaled_row unit) rows.now) }
{
    let mut scaled = List::new(alloc);
    for row in rows {
        scaled.push(scaled_row(alloc, unit, row)?)?;
    }
    Ok(scaled)
}

/// The rows of a problem's bounds in their common unit.
pub fn scaled_rows(alloc: Global, problem: &Problem) -> Result<CommonRows, NoMemory>
    requires scaled { IsScaled problem.now }
    ensures { IfOk result (IsCommon problem.now) }
{
    let rows = problem.rows();
    match common_unit(rows) {
        Ok(unit) => {
            let rows = each_scaled(alloc, unit, rows)?;
            Ok(CommonRows { unit, rows })
        }
        Err(_) => unreachable!(),
    }
}
