//! The first basis.
ghost use Rattle.std.specs.Prelude.{◌≡◌, ◌≤◌, length, IfOk};
ghost use Rattle.ps_table.specs.declared.limits.TheConstants.{MOST_ROWS};
ghost use Rattle.ps_table.specs.Grids.{AreHomes};

use crate::col::Col;
use ps_io::NoMemory;
use std::alloc::Global;

/// The homes of so many rows.
pub(crate) fn first_basic(alloc: Global, rows: usize) -> Result<Vec<Col>, NoMemory>
    requires few { rows ≤ MOST_ROWS }
    ensures count { IfOk result (λ v. length v.items ≡ rows) }
    ensures value { IfOk result (λ v. AreHomes rows v.items) }
{
    let mut made = Vec::new(alloc);
    for i in 0..rows {
        made.push(Col::Home(i as u32))?;
    }
    Ok(made)
}
