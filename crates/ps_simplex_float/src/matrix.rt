//! Rectangular tables of floats.
ghost use Rattle.std.specs.Prelude.{◌≡◌, ◌+◌, ◌<◌, ◌≤◌, ◌*◌, ◌^◌, length, vec_len, IfOk};

use crate::vectors::{add_multiple, dot, scale};
use std::alloc::{AllocError, Global};

/// A rectangular table of floats, row by row.
#[derive(Drop)]
pub(crate) struct Matrix {
    rows: usize,
    columns: usize,
    cells: Vec<f64>,
    ghost full: { vec_len cells ≡ rows * columns },
    ghost wide: { 0 < columns },
}

impl Matrix {
    /// The matrix of zeros.
    pub(crate) fn zeros(alloc: Global, rows: usize, columns: usize) -> Result<Matrix, AllocError>
        requires wide { 0 < columns }
        requires small { rows * columns < 2 ^ 64 }
        ensures { IfOk result (λ m. (m.rows ≡ rows) × (m.columns ≡ columns)) }
    {
        Ok(Matrix {
            rows,
            columns,
            cells: vec![in alloc; 0.0; rows * columns]?,
        })
    }

    /// An equal matrix.
    pub(crate) fn copy(&self, alloc: Global) -> Result<Matrix, AllocError>
        ensures { IfOk result (λ m. (m.rows ≡ self.now.rows) × (m.columns ≡ self.now.columns)) }
    {
        Ok(Matrix {
            rows: self.rows,
            columns: self.columns,
            cells: self.cells.to_vec(alloc)?,
        })
    }

    /// A row.
    pub(crate) fn row(&self, row: usize) -> &[f64]
        requires { row < self.now.rows }
        ensures { length result.now ≡ self.now.columns }
    {
        let start = row * self.columns;
        &self.cells[start..start + self.columns]
    }

    /// Makes each entry 0.
    pub(crate) fn clear(&mut self)
        ensures rows { self.new.rows ≡ self.old.rows }
        ensures columns { self.new.columns ≡ self.old.columns }
    {
        self.cells.fill(0.0);
    }

    /// Sets an entry.
    pub(crate) fn set(&mut self, row: usize, column: usize, entry: f64)
        requires row_in { row < self.old.rows }
        requires column_in { column < self.old.columns }
        ensures rows { self.new.rows ≡ self.old.rows }
        ensures columns { self.new.columns ≡ self.old.columns }
    {
        self.cells[row * self.columns + column] = entry;
    }

    /// Writes the product with a column.
    pub(crate) fn times(&self, column: &[f64], product: &mut [f64]) {
        for (x, row) in product
            .iter_mut()
            .zip(self.cells.chunks_exact(self.columns))
        {
            *x = dot(row, column);
        }
    }

    /// Adds the product of a row with the matrix.
    pub(crate) fn add_combination(&self, factors: &[f64], sum: &mut [f64]) {
        for (factor, row) in factors.iter().zip(self.cells.chunks_exact(self.columns)) {
            if *factor != 0.0 {
                add_multiple(sum, *factor, row);
            }
        }
    }

    /// Turns a column into the unit column of a row, in which its entry is the pivot.
    pub(crate) fn eliminate(&mut self, row: usize, column: &[f64])
        requires row_in { row < self.old.rows }
        requires tall { row < length column.now }
        ensures rows { self.new.rows ≡ self.old.rows }
        ensures columns { self.new.columns ≡ self.old.columns }
    {
        let start = row * self.columns;
        eliminate(&mut self.cells, start, self.columns, row, column);
    }
}

/// The same among the cells, of which the pivot's row starts at a place.
fn eliminate(cells: &mut [f64], start: usize, width: usize, row: usize, column: &[f64])
    requires wide { 0 < width }
    requires row_in { start + width ≤ length cells.old }
    requires tall { row < length column.now }
{
    let (above, rest) = cells.split_at_mut(start);
    let (pivot, below) = rest.split_at_mut(width);
    scale(pivot, 1.0 / column[row]);
    for (target, entry) in above.chunks_exact_mut(width).zip(&column[..row]) {
        if *entry != 0.0 {
            add_multiple(target, -entry, pivot);
        }
    }
    for (target, entry) in below.chunks_exact_mut(width).zip(&column[row + 1..]) {
        if *entry != 0.0 {
            add_multiple(target, -entry, pivot);
        }
    }
}
