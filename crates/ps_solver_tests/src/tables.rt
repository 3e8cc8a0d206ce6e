//! The conditions of calls on a table, as tests, and what a table has.

ghost use Rattle.std.specs.Prelude.{ℕ, ◌≢◌, ◌<◌, ◌≤ℤ◌, length, get_or, pos, negsuc, IsTrue};
ghost use Rattle.ps_meaning.specs.Rational.{zero_q};
ghost use Rattle.ps_bland.specs.Ready.{HasNoNegativeValue};
ghost use Rattle.ps_table.specs.Tableau.{HasColumn, entry_of, rows_of};
ghost use Rattle.ps_table.specs.Pricing.{HasCosts};

use ps_frac::Fraction;
use ps_table::{Col, Costs, Table};

/// Whether no row has a value below 0.
pub(crate) fn are_values_at_least_zero(table: &Table) -> bool
    ensures { IsTrue result → HasNoNegativeValue table.now }
{
    for row in 0..table.rows() {
        if table.value(row).numerator() < 0 {
            return false;
        }
    }
    true
}

/// Whether the costs are from -1 to 1.
fn are_small(costs: &[i8]) -> bool
    ensures low { IsTrue result
        → (i : ℕ) → i < length costs.now → negsuc 0 ≤ℤ get_or costs.now i (pos 0) }
    ensures high { IsTrue result
        → (i : ℕ) → i < length costs.now → get_or costs.now i (pos 0) ≤ℤ pos 1 }
{
    for k in 0..costs.len() {
        if costs[k] < -1 || costs[k] > 1 {
            return false;
        }
    }
    true
}

/// Whether there is a cost for each column.
pub(crate) fn has_costs(table: &Table, costs: &Costs) -> bool
    ensures { IsTrue result → HasCosts costs.now table.now }
{
    let homes = costs.homes.as_slice();
    let worlds = costs.worlds.as_slice();
    homes.len() == table.rows() as usize
        && worlds.len() >= table.worlds() as usize
        && are_small(homes)
        && are_small(worlds)
}

/// Whether there is such a column.
pub(crate) fn is_inside(table: &Table, col: Col) -> bool
    ensures { IsTrue result → HasColumn table.now col }
{
    match col {
        Col::Home(home) => home < table.rows(),
        Col::World(world) => 0 < world && world <= table.worlds(),
    }
}

/// Whether the answer is the fraction of a numerator and a denominator.
pub(crate) fn is_fraction(answer: &Fraction, expected: (i128, i128)) -> bool {
    answer.numerator() == expected.0 && answer.denominator() == expected.1
}

/// Adds a world, and tells whether it was added.
pub(crate) fn adds(table: &mut Table, entries: &[i64]) -> bool {
    if entries.len() != table.rows() as usize || table.worlds() >= 10 {
        return false;
    }
    table.add_world(entries).is_ok()
}

/// Whether there is an entry other than 0 in a row of a column.
pub(crate) fn can_pivot(table: &Table, row: u32, col: Col) -> bool
    ensures row { IsTrue result → row < rows_of table.now }
    ensures col { IsTrue result → HasColumn table.now col }
    ensures entry { IsTrue result → entry_of table.now row col ≢ zero_q }
{
    if row >= table.rows() || !is_inside(table, col) {
        return false;
    }
    match table.entry(row, col) {
        Ok(entry) => !entry.is_zero(),
        Err(_) => false,
    }
}

/// Makes a column basic, and tells whether it was done.
pub(crate) fn pivots(table: &mut Table, row: u32, col: Col) -> bool {
    can_pivot(table, row, col) && table.pivot(row, col).is_ok()
}

/// Whether a row has this value.
pub(crate) fn has_value(table: &Table, row: u32, expected: (i128, i128)) -> bool {
    row < table.rows() && is_fraction(&table.value(row), expected)
}

/// Whether a column has this entry in a row.
pub(crate) fn has_entry(table: &Table, row: u32, col: Col, expected: (i128, i128)) -> bool {
    if row >= table.rows() || !is_inside(table, col) {
        return false;
    }
    match table.entry(row, col) {
        Ok(entry) => is_fraction(&entry, expected),
        Err(_) => false,
    }
}
