//! Columns of worlds.
ghost use Rattle.std.specs.Prelude.{◌≡◌, All, IfOk, IfSome};
ghost use Rattle.ps_problem.specs.Rows.{HasNode};
ghost use Rattle.ps_runs.specs.Columns.{HasValues, entry_over, column_over};

use ps_io::NoMemory;
use ps_problem::{Row, Side, given_indicator};
use std::alloc::Global;

/// A row's entry in a world's column.
fn entry(values: &[bool], row: &Row) -> i64
    requires { HasValues values.now row.now }
    ensures { result ≡ entry_over values.now row.now }
{
    let number = row.value(values);
    match row.side {
        Side::AtLeast => -number,
        Side::AtMost | Side::Exactly => number,
    }
}

/// The column of a world, by the truth values of the nodes: whether the evidence is true, and the
/// entry of each row.
pub fn column_of(
    alloc: Global,
    values: &[bool],
    rows: &[Row],
    evidence: Option<u32>,
) -> Result<Vec<i64>, NoMemory>
    requires rows { All (HasValues values.now) rows.now }
    requires evidence { IfSome evidence (HasNode values.now) }
    ensures { IfOk result (λ v. v.items ≡ column_over values.now rows.now evidence) }
{
    let mut column = Vec::new(alloc);
    column.push(given_indicator(values, evidence))?;
    for row in rows {
        column.push(entry(values, row))?;
    }
    Ok(column)
}
