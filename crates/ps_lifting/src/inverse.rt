//! The inverse of a matrix modulo the prime.
ghost use Rattle.std.specs.Prelude.{◌≤◌, ◌<◌, IfSome, length};

use crate::residue::Residue;
use ps_io::{List, NoMemory};
use std::alloc::Global;

/// A row of residues.
pub type Residues = Vec<Residue>;

/// The inverse of a square matrix modulo the prime 2^61 - 1. Nothing is claimed of it: `solve`
/// tests what it leads to. It serves any number of right sides.
#[derive(Drop)]
pub struct Inverse {
    pub(crate) rows: Vec<Residues>,
}

// The column of residues at a place.
fn column_of(alloc: Global, rows: &[Residues], place: usize) -> Result<Residues, NoMemory> {
    let mut found = Vec::new(alloc);
    for row in rows {
        if place < row.len() {
            found.push(row[place])?;
        }
    }
    Ok(found)
}

impl Inverse {
    /// The inverse of the transposed matrix, whose rows are this one's columns.
    pub fn transpose(&self, alloc: Global) -> Result<Inverse, NoMemory> {
        let mut found = Vec::new(alloc);
        for place in 0..self.rows.len() {
            found.push(column_of(alloc, self.rows.as_slice(), place)?)?;
        }
        Ok(Inverse { rows: found })
    }
}

fn residues_of(alloc: Global, row: &[i64]) -> Result<Residues, NoMemory> {
    let mut found = Vec::new(alloc);
    for x in row {
        found.push(Residue::of_whole(*x as i128))?;
    }
    Ok(found)
}

fn table_of(alloc: Global, rows: &[List<i64>]) -> Result<Vec<Residues>, NoMemory> {
    let mut found = Vec::new(alloc);
    for row in rows {
        found.push(residues_of(alloc, row.as_slice())?)?;
    }
    Ok(found)
}

// Whether the row has an entry there that isn't 0.
fn has_entry(row: &[Residue], column: usize) -> bool {
    column < row.len() && !row[column].is_zero()
}

// The first row from this column's on with an entry in the column.
fn pivot_place(table: &[Residues], column: usize) -> Option<usize>
    ensures within { IfSome result (λ i. i < length table.now) }
    ensures from { IfSome result (λ i. column ≤ i) }
{
    for i in column..table.len() {
        if has_entry(&table[i], column) {
            return Some(i);
        }
    }
    None
}

// The row divided by its entry, with the entry's inverse in the entry's place.
fn pivot_row(alloc: Global, row: &[Residue], column: usize) -> Result<Residues, NoMemory> {
    let mut found = Vec::new(alloc);
    if column >= row.len() {
        return Ok(found);
    }
    let by = row[column].inverse();
    for j in 0..row.len() {
        let entry = if j == column { Residue::one() } else { row[j] };
        found.push(entry.times(by))?;
    }
    Ok(found)
}

// Adds the pivot row so many times.
fn add_times(row: &mut [Residue], by: Residue, pivot: &[Residue]) {
    if row.len() != pivot.len() {
        return;
    }
    for j in 0..row.len() {
        row[j] = row[j].plus_product(by, pivot[j]);
    }
}

// Takes the pivot row away as often as the entry in the column says.
fn take_away(row: &mut [Residue], column: usize, pivot: &[Residue]) {
    if column >= row.len() {
        return;
    }
    if row[column].is_zero() {
        return;
    }
    let by = row[column].neg();
    row[column] = Residue::zero();
    add_times(row, by, pivot);
}

// Takes the pivot row away from all rows but the column's own, which it takes the place of.
fn eliminate(table: &mut [Residues], column: usize, pivot: Residues) {
    for i in 0..table.len() {
        if i != column {
            take_away(&mut table[i], column, pivot.as_slice());
        }
    }
    if column < table.len() {
        table[column] = pivot;
    }
}

fn swap_in(row: &mut [Residue], a: usize, b: usize) {
    if a < row.len() && b < row.len() {
        row.swap(a, b);
    }
}

// Swaps two columns.
fn swap_columns(table: &mut [Residues], a: usize, b: usize) {
    for i in 0..table.len() {
        swap_in(&mut table[i], a, b);
    }
}

// Swaps columns as rows were swapped, from the last on.
fn swap_back(table: &mut [Residues], swaps: &[usize]) {
    for i in 0..swaps.len() {
        let column = swaps.len() - 1 - i;
        swap_columns(table, column, swaps[column]);
    }
}

/// The inverse of a square matrix, by its rows, modulo the prime 2^61 - 1 (Gauss and Jordan's
/// elimination in place, of about `k^3` products for `k` rows). None where the prime divides the
/// determinant, as it does where the matrix is singular. Of rows that aren't as long as they are
/// many, what is answered leads to no solution.
pub fn inverse_of(alloc: Global, rows: &[List<i64>]) -> Result<Option<Inverse>, NoMemory> {
    let mut table = table_of(alloc, rows)?;
    let mut swaps = Vec::new(alloc);
    for column in 0..rows.len() {
        let Some(place) = pivot_place(table.as_slice(), column) else {
            return Ok(None);
        };
        table.swap(column, place);
        swaps.push(place)?;
        let pivot = pivot_row(alloc, table[column].as_slice(), column)?;
        eliminate(table.as_mut_slice(), column, pivot);
    }
    swap_back(table.as_mut_slice(), swaps.as_slice());
    Ok(Some(Inverse { rows: table }))
}
