//! The limits of a table and of a pool, and of the numbers that an answer prints.
ghost use Rattle.std.specs.Prelude.{◌≡◌, ◌↔◌, ◌≤◌, ◌-◌, ◌^◌, IsTrue, unsigned_abs};
ghost use Rattle.ps_meaning.specs.declared.limits.TheConstants.{PRINTED_LIMIT};
ghost use Rattle.ps_table.specs.declared.limits.TheConstants.{MOST_ROWS};
ghost use Rattle.ps_table.specs.declared.pool.TheConstants.{MOST_WORLDS};

use ps_meaning::PRINTED_LIMIT;

/// The most rows of a table: one for each of 100 bounds, and one that normalises.
pub const MOST_ROWS: usize = 101;

/// Whether a number is small enough to be printed.
pub fn can_be_printed(number: i128) -> bool
    ensures { IsTrue result ↔ (unsigned_abs number ≤ PRINTED_LIMIT) }
{
    number.unsigned_abs() <= PRINTED_LIMIT
}

/// The limits by their numbers.
pub fn limits_have_these_numbers()
    ensures rows { MOST_ROWS ≡ 101 }
    ensures worlds { MOST_WORLDS ≡ 2 ^ 32 - 1 }
{}
