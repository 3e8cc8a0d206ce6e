//! A basis: a column for each row, and the inverse of the matrix of their entries.
ghost use Rattle.std.specs.Prelude.{◌≡◌, ◌<◌, ◌≤◌, length, vec_len, IfOk, IsTrue};
ghost use Rattle.ps_simplex_float.specs.declared.limits.TheConstants.{MOST_ROWS};

use crate::column::Column;
use crate::limits::{FEASIBLE, MOST_ROWS};
use crate::matrix::Matrix;
use crate::program::Program;
use crate::ratio::free_row;
use crate::vectors::{add_multiple, copy};
use std::alloc::{AllocError, Global};

/// The basic columns of the rows with their values.
#[derive(Drop)]
pub(crate) struct Basis {
    columns: Vec<Column>,
    values: Vec<f64>,
    inverse: Matrix,
    /// Which rows an inversion has given a column.
    is_taken: Vec<bool>,
    ghost columns_len: { vec_len columns ≡ inverse.rows },
    ghost values_len: { vec_len values ≡ inverse.rows },
    ghost is_taken_len: { vec_len is_taken ≡ inverse.rows },
    ghost square: { inverse.columns ≡ inverse.rows },
}

impl Basis {
    /// The basis of so many rows; its columns are not chosen yet.
    pub(crate) fn new(alloc: Global, size: usize) -> Result<Basis, AllocError>
        requires some { 0 < size }
        requires few { size ≤ MOST_ROWS }
        ensures { IfOk result (λ b. b.inverse.rows ≡ size) }
    {
        Ok(Basis {
            columns: vec![in alloc; Column::Artificial(0); size]?,
            values: vec![in alloc; 0.0; size]?,
            inverse: Matrix::zeros(alloc, size, size)?,
            is_taken: vec![in alloc; false; size]?,
        })
    }

    /// An equal basis.
    pub(crate) fn copy(&self, alloc: Global) -> Result<Basis, AllocError> {
        Ok(Basis {
            columns: self.columns.to_vec(alloc)?,
            values: self.values.to_vec(alloc)?,
            inverse: self.inverse.copy(alloc)?,
            is_taken: self.is_taken.to_vec(alloc)?,
        })
    }

    /// The basic columns, one for each row.
    pub(crate) fn columns(&self) -> &[Column]
        ensures { length result.now ≡ self.now.inverse.rows }
    {
        &self.columns
    }

    /// Chooses the basic columns.
    pub(crate) fn set_columns(&mut self, columns: &[Column])
        ensures { self.new.inverse.rows ≡ self.old.inverse.rows }
    {
        copy(&mut self.columns, columns);
    }

    /// The values of the basic columns.
    pub(crate) fn values(&self) -> &[f64]
        ensures { length result.now ≡ self.now.inverse.rows }
    {
        &self.values
    }

    /// Whether a row is there and its value is not above 0.
    pub(crate) fn is_zero(&self, row: usize) -> bool
        ensures { IsTrue result → row < self.now.inverse.rows }
    {
        row < self.values.len() && self.values[row] < FEASIBLE
    }

    /// Raises the value of a row.
    pub(crate) fn raise(&mut self, row: usize, rise: f64)
        requires { row < self.old.inverse.rows }
        ensures { self.new.inverse.rows ≡ self.old.inverse.rows }
    {
        self.values[row] += rise;
    }

    /// A row of the inverse.
    pub(crate) fn inverse_row(&self, row: usize) -> &[f64]
        requires { row < self.now.inverse.rows }
    {
        self.inverse.row(row)
    }

    /// Writes a column of entries in terms of the basic columns.
    pub(crate) fn write_direction(&self, entries: &[f64], direction: &mut [f64]) {
        self.inverse.times(entries, direction);
    }

    /// Adds the rows' prices at the costs of the basic columns.
    pub(crate) fn add_duals(&self, costs: &[f64], duals: &mut [f64]) {
        self.inverse.add_combination(costs, duals);
    }

    /// Solves for the values at a right side.
    pub(crate) fn solve(&mut self, right: &[f64])
        ensures { self.new.inverse.rows ≡ self.old.inverse.rows }
    {
        self.inverse.times(right, &mut self.values);
    }

    /// Makes a column with a direction basic in a row.
    pub(crate) fn pivot(&mut self, row: usize, column: Column, direction: &[f64])
        requires row_in { row < self.old.inverse.rows }
        requires tall { row < length direction.now }
        ensures { self.new.inverse.rows ≡ self.old.inverse.rows }
    {
        let step = self.values[row] / direction[row];
        add_multiple(&mut self.values, -step, direction);
        self.values[row] = step;
        self.inverse.eliminate(row, direction);
        self.columns[row] = column;
    }

    /// Starts an inversion: no row has a column, and the inverse is that of the unit columns.
    pub(crate) fn reset(&mut self)
        ensures { self.new.inverse.rows ≡ self.old.inverse.rows }
    {
        self.is_taken.fill(false);
        self.inverse.clear();
        for row in 0..self.columns.len() {
            self.inverse.set(row, row, 1.0);
        }
    }

    /// Gives a unit column its row in an inversion, where no other has it.
    pub(crate) fn place_unit(&mut self, row: usize, entry: f64, column: Column) -> bool
        ensures { self.new.inverse.rows ≡ self.old.inverse.rows }
    {
        if row >= self.is_taken.len() || self.is_taken[row] {
            return false;
        }
        self.is_taken[row] = true;
        self.inverse.set(row, row, entry);
        self.columns[row] = column;
        true
    }

    /// Gives a column with a direction the free row of its largest entry in an inversion, where one is
    /// large enough.
    pub(crate) fn place_added(&mut self, column: Column, direction: &[f64]) -> bool
        ensures { self.new.inverse.rows ≡ self.old.inverse.rows }
    {
        let Some(row) = free_row(&self.is_taken, direction) else {
            return false;
        };
        self.is_taken[row] = true;
        self.pivot(row, column, direction);
        true
    }

    /// The cost of the basic columns at their values.
    pub(crate) fn objective(&self, program: &Program) -> f64 {
        let mut sum = 0.0;
        for (column, value) in self.columns.iter().zip(&self.values) {
            sum += program.cost(*column) * value;
        }
        sum
    }
}
