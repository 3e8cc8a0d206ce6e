//! What can be read of a program and its basis.
ghost use Rattle.std.specs.Prelude.{◌≡◌};

use crate::column::{Column, RowKind};
use crate::simplex::Simplex;

impl Simplex {
    /// What a row asks; `None` where there is no such row.
    pub fn row_kind(&self, row: usize) -> Option<RowKind> {
        self.program.row_kind(row)
    }

    /// How many columns are added.
    pub fn columns(&self) -> usize {
        self.program.columns()
    }

    /// The entries of an added column, one for each row. None where there is no such column.
    pub fn entries(&self, number: usize) -> &[f64] {
        self.program.entries(number)
    }

    /// The basic columns, one for each row.
    pub fn basis(&self) -> &[Column] {
        self.basis.columns()
    }

    /// Whether a column is basic.
    pub fn is_basic(&self, column: Column) -> bool {
        self.basis.columns().contains(&column)
    }

    /// The values of the basic columns, one for each row. All other columns have the value 0.
    pub fn values(&self) -> &[f64] {
        self.basis.values()
    }

    /// The cost at these values, in the present phase.
    pub fn objective(&self) -> f64 {
        self.basis.objective(&self.program)
    }

    /// A row of the inverse of the basis, one entry for each row of the program. None where there is no
    /// such row.
    pub fn inverse_row(&self, row: usize) -> &[f64] {
        if row < self.basis.columns().len() {
            self.basis.inverse_row(row)
        } else {
            &[]
        }
    }

    /// The rows' prices, one for each row, as they were found last: the costs of the basic columns times
    /// the inverse. Pivots and changes of costs leave them as they are, until `find_duals` or a pivot
    /// that follows finds them anew.
    pub fn duals(&self) -> &[f64] {
        &self.duals
    }

    /// What a column's value costs more than what it brings at the rows' prices that were found last. An
    /// added column that isn't there costs 0.
    pub fn reduced_cost(&self, column: Column) -> f64 {
        self.program.reduced_cost(column, &self.duals)
    }

    /// How many pivots were made since the program was made.
    pub fn pivots(&self) -> u64 {
        self.pivots
    }

    /// Whether the right side is without perturbation, and no pivot was made since the basis was inverted.
    pub fn is_clean(&self) -> bool {
        !self.is_perturbed && self.updates == 0
    }

    /// Finds the rows' prices at the present basis and costs.
    pub fn find_duals(&mut self)
        ensures { self.new.basis.inverse.rows ≡ self.old.basis.inverse.rows }
    {
        self.program
            .write_costs(self.basis.columns(), &mut self.entries);
        self.duals.fill(0.0);
        self.basis.add_duals(&self.entries, &mut self.duals);
    }

    /// A column in terms of the basic columns, one entry for each row: by how much their values fall
    /// where the column's rises by 1. A column that isn't there has zeros.
    pub fn direction(&mut self, column: Column) -> &[f64] {
        self.read(column);
        &self.direction
    }

    /// Finds the entries and the direction of a column.
    pub(super) fn read(&mut self, column: Column)
        ensures { self.new.basis.inverse.rows ≡ self.old.basis.inverse.rows }
    {
        self.program.write_entries(column, &mut self.entries);
        self.basis
            .write_direction(&self.entries, &mut self.direction);
    }
}
