//! The first rows.
ghost use Rattle.std.specs.Prelude.{◌≡◌, suc, ◌*◌, ◌<◌, ◌≤◌, ◌^◌, IfOk, unsigned_abs};
ghost use Rattle.ps_whole.specs.Homes.{home_at, AreHomesTo, AreOnesTo, IsOfHomes};
ghost use Rattle.ps_whole.specs.declared.limits.TheConstants.{MOST_ROWS};

use crate::rows::Whole;
use ps_io::NoMemory;
use std::alloc::Global;

/// 1 in its own row, else 0.
fn home_number(row: usize, column: usize) -> i64
    ensures value { result ≡ home_at row column }
    ensures small { unsigned_abs result < 2 ^ 62 }
{
    if row == column.saturating_sub(1) {
        1
    } else {
        0
    }
}

/// The numbers of the first rows.
fn first_numbers(alloc: Global, rows: usize) -> Result<Vec<i64>, NoMemory>
    requires few { rows ≤ MOST_ROWS }
    ensures homes { IfOk result (λ v. AreHomesTo rows (rows * suc rows) v.items) }
{
    let width = 1 + rows;
    let mut made = Vec::new(alloc);
    for k in 0..rows * width {
        made.push(home_number(k / width, k % width))?;
    }
    Ok(made)
}

/// The denominators of the first rows.
fn first_unders(alloc: Global, rows: usize) -> Result<Vec<u64>, NoMemory>
    requires few { rows ≤ MOST_ROWS }
    ensures ones { IfOk result (λ v. AreOnesTo rows v.items) }
{
    let mut made = Vec::new(alloc);
    for k in 0..rows {
        made.push(1)?;
    }
    Ok(made)
}

impl Whole {
    /// The right side and the homes of so many rows.
    pub fn of_homes(alloc: Global, rows: usize) -> Result<Whole, NoMemory>
        requires few { rows ≤ MOST_ROWS }
        ensures homes { IfOk result (IsOfHomes rows) }
    {
        let numbers = first_numbers(alloc, rows)?;
        let unders = first_unders(alloc, rows)?;
        Ok(Whole {
            alloc,
            rows,
            width: 1 + rows,
            numbers,
            unders,
        })
    }
}
