//! The homes of a table's rows.
ghost use Rattle.std.specs.Prelude.{◌≡◌, IfOk};
ghost use Rattle.ps_runs.specs.Columns.{home_for, homes_over};

use ps_io::NoMemory;
use ps_problem::{Row, Side};
use ps_table::Home;
use std::alloc::Global;

/// The home of a row: an equation has no slack.
fn home_of(row: &Row) -> Home
    ensures { result ≡ home_for row.now.side }
{
    match row.side {
        Side::AtLeast | Side::AtMost => Home::Slack,
        Side::Exactly => Home::Artificial,
    }
}

/// The homes: that of row 0 is artificial, and behind it is that of each row.
pub fn homes_of(alloc: Global, rows: &[Row]) -> Result<Vec<Home>, NoMemory>
    ensures { IfOk result (λ v. v.items ≡ homes_over rows.now) }
{
    let mut homes = Vec::new(alloc);
    homes.push(Home::Artificial)?;
    for row in rows {
        homes.push(home_of(row))?;
    }
    Ok(homes)
}
