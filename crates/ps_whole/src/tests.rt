//! Small tables, worked out by hand.
ghost use Rattle.std.specs.Prelude.{◌≡◌, ◌<◌, IfSome};
ghost use Rattle.ps_whole.specs.Sums.{IsSmallSum};
ghost use Rattle.ps_whole.specs.Pivots.{IsNumbers, over_row};

use crate::{Whole, WholeSum, row_laws};
use ps_frac::Fraction;
use std::test::Fail;

/// The entry of the column that enters in a row.
fn entry_over(table: &Whole, row: usize, column: &[i64]) -> Fraction
    requires row { row < table.now.rows }
    requires numbers { IsNumbers table.now column.now }
    ensures value { result ≡ over_row table.now column.now row }
{
    // Called for its clauses: the rows are whole.
    table.rows();
    Fraction::new(column[row] as i128, table.under(row) as i128)
}

/// The table after a pivot, by the numbers of the column that enters, if its numbers are small
/// enough.
fn turned(table: &Whole, row: usize, column: &[i64]) -> Option<Whole>
    requires numbers { IsNumbers table.now column.now }
{
    if row >= table.rows() || entry_over(table, row, column).is_zero() {
        return None;
    }
    // Called once: a law, no more than a read.
    table.pivots_are_narrow(row, column);
    match table.after_pivot(row, column) {
        Ok(made) => made,
        Err(_) => None,
    }
}

/// The table after a pivot that makes a kept column enter, if its numbers are small enough.
fn pivoted(table: &Whole, row: usize, column: usize) -> Option<Whole> {
    if column >= table.width() {
        return None;
    }
    match table.column(column) {
        Ok(numbers) => turned(table, row, &numbers),
        Err(_) => None,
    }
}

/// The table after a pivot that makes the column of some entries enter, if its numbers are small
/// enough.
fn entered(table: &Whole, row: usize, entries: &[i64]) -> Option<Whole> {
    if entries.len() >= table.width() {
        return None;
    }
    match table.column_of(entries) {
        Ok(Some(numbers)) => turned(table, row, &numbers),
        _ => None,
    }
}

/// Whether a fraction has this numerator and denominator.
fn is_fraction(answer: &Fraction, expected: (i128, i128)) -> bool {
    answer.numerator() == expected.0 && answer.denominator() == expected.1
}

/// Whether the first entries of a row are these.
fn has_row(table: &Whole, row: usize, expected: &[(i128, i128)]) -> bool {
    if row >= table.rows() || expected.len() > table.width() {
        return false;
    }
    for column in 0..expected.len() {
        if !is_fraction(&table.entry(row, column), expected[column]) {
            return false;
        }
    }
    true
}

/// A sum with a cost times an entry, if it stays small.
fn plus(table: &Whole, sum: &WholeSum, cost: i8, row: usize, column: usize) -> Option<WholeSum>
    requires small { IsSmallSum sum.now }
    ensures small { IfSome result IsSmallSum }
{
    if cost < -1 || cost > 1 || row >= table.rows() || column >= table.width() {
        return None;
    }
    table.sum_with(sum, cost, row, column)
}

/// Costs times the entries of three homes in their own rows, if the sums stay small.
fn sum_of(table: &Whole, costs: [i8; 3]) -> Option<Fraction> {
    let first = plus(table, &WholeSum::zero(), costs[0], 0, 1)?;
    let second = plus(table, &first, costs[1], 1, 2)?;
    let third = plus(table, &second, costs[2], 2, 3)?;
    Some(third.fraction())
}

/// Whether the sum is the fraction of a numerator and a denominator.
fn is_sum(table: &Whole, costs: [i8; 3], expected: (i128, i128)) -> bool {
    match sum_of(table, costs) {
        Some(sum) => is_fraction(&sum, expected),
        None => false,
    }
}

/// Rows 1, 1, 0 and 0, 0, 1 of two homes, after a pivot on the 2 of the entries 2 and 3.
fn halves(homes: &Whole) -> Option<Whole> {
    entered(homes, 0, &[2, 3])
}

/// After a pivot on -3/2 in the second row.
fn thirds(homes: &Whole) -> Option<Whole> {
    pivoted(&halves(homes)?, 1, 1)
}

/// The rows behind `halves`.
const HALVES: [[(i128, i128); 3]; 2] = [[(1, 2), (1, 2), (0, 1)], [(-3, 2), (-3, 2), (1, 1)]];

/// The rows behind `thirds`.
const THIRDS: [[(i128, i128); 3]; 2] = [[(0, 1), (0, 1), (1, 3)], [(1, 1), (1, 1), (-2, 3)]];

/// Whether a row of the column of some entries is this.
fn has_cell(table: &Whole, row: usize, entries: &[i64], expected: (i128, i128)) -> bool {
    if row >= table.rows() || entries.len() >= table.width() {
        return false;
    }
    match table.cell_of(entries, row) {
        Some(cell) => is_fraction(&cell, expected),
        None => false,
    }
}

/// Whether the first rows are the right side and the homes.
fn are_homes(table: &Whole) -> bool {
    has_row(table, 0, &[(1, 1), (1, 1), (0, 1)]) && has_row(table, 1, &[(0, 1), (0, 1), (1, 1)])
}

/// Whether the rows are these after the first pivot.
fn are_halves(homes: &Whole) -> bool {
    match halves(homes) {
        Some(table) => {
            has_row(&table, 0, &HALVES[0])
                && has_row(&table, 1, &HALVES[1])
                && has_cell(&table, 0, &[1, -1], (1, 2))
                && has_cell(&table, 1, &[1, -1], (-5, 2))
        }
        None => false,
    }
}

/// Whether the rows are these after the second pivot.
fn are_thirds(homes: &Whole) -> bool {
    match thirds(homes) {
        Some(table) => {
            has_row(&table, 0, &THIRDS[0])
                && has_row(&table, 1, &THIRDS[1])
                && has_cell(&table, 0, &[4, 6], (2, 1))
                && has_cell(&table, 1, &[1, -1], (5, 3))
        }
        None => false,
    }
}

#[test]
fn pivots_and_columns(rt: HostRuntime) -> Result<(), Fail> {
    let homes = Whole::of_homes(rt.alloc(), 2)?;
    assert!(rt; are_homes(&homes) && homes.number(0, 1) == 1 && homes.number(1, 1) == 0);
    assert!(rt; are_halves(&homes) && are_thirds(&homes));
    row_laws();
    Ok(())
}

/// A row loses 2^61 times 5, which is more than 2^62.
fn is_too_large(homes: &Whole) -> Option<bool> {
    let table = entered(homes, 0, &[1, 1 << 61])?;
    Some(entered(&table, 0, &[5, 3]).is_none())
}

#[test]
fn numbers_of_two_to_the_62_are_not_kept(rt: HostRuntime) -> Result<(), Fail> {
    let homes = Whole::of_homes(rt.alloc(), 2)?;
    assert!(rt; has_cell(&homes, 0, &[(1 << 62) - 1, 0], ((1 << 62) - 1, 1)));
    assert!(rt; !has_cell(&homes, 0, &[1 << 62, 0], (1 << 62, 1)));
    assert!(rt; is_too_large(&homes) == Some(true));
    Ok(())
}

/// Three rows, each divided by one of the numbers.
fn divided_rows(homes: &Whole, by: [i64; 3]) -> Option<Whole> {
    let first = entered(homes, 0, &[by[0], 0, 0])?;
    let second = entered(&first, 1, &[0, by[1], 0])?;
    entered(&second, 2, &[0, 0, by[2]])
}

/// Costs of three rows, and the sum of the costs times the homes' entries in their own rows.
struct Sum {
    costs: [i8; 3],
    expected: (i128, i128),
}

/// Sums in rows over 2, 3 and 4.
const SUMS: [Sum; 5] = [
    Sum {
        costs: [1, 1, 1],
        expected: (13, 12),
    },
    Sum {
        costs: [1, -1, 0],
        expected: (1, 6),
    },
    Sum {
        costs: [-1, 0, -1],
        expected: (-3, 4),
    },
    Sum {
        costs: [0, 0, 0],
        expected: (0, 1),
    },
    Sum {
        costs: [0, 1, 0],
        expected: (1, 3),
    },
];

/// The place of the first sum that isn't as expected.
fn wrong_sum(table: &Whole) -> Option<usize> {
    SUMS.iter()
        .position(|sum| !is_sum(table, sum.costs, sum.expected))
}

#[test]
fn sums_over_one_denominator(rt: HostRuntime) -> Result<(), Fail> {
    let homes = Whole::of_homes(rt.alloc(), 3)?;
    let table = divided_rows(&homes, [2, 3, 4]).expect(&rt, "the numbers are small");
    assert!(rt; wrong_sum(&table) == None);
    Ok(())
}

#[test]
fn sums_over_a_long_denominator_are_not_made(rt: HostRuntime) -> Result<(), Fail> {
    let homes = Whole::of_homes(rt.alloc(), 3)?;
    // No two of these have a factor in common, and their product is above 2^182.
    let by = [(1 << 61) - 1, 1 << 61, (1 << 61) + 1];
    let table = divided_rows(&homes, by).expect(&rt, "the numbers are small");
    assert!(rt; sum_of(&table, [1, 1, 1]).is_none());
    assert!(rt; is_sum(&table, [1, 0, 0], (1, (1 << 61) - 1)));
    Ok(())
}
