//! Single pivots.
ghost use Rattle.std.specs.Prelude.{◌<◌, vec_len};

use crate::column::Column;
use crate::limits::{LEAST_PIVOT, LEAST_STEP, MOST_DEGENERATE, MOST_UPDATES, PERTURBATION};
use crate::ratio::{artificial_row, leaving_row};
use crate::simplex::Simplex;
use crate::vectors::{add_multiple, copy};

/// What became of a column that was to enter.
#[derive(Clone, Copy, PartialEq, Eq)]
pub(super) enum Step {
    Made,
    Unblocked,
    Singular,
}

impl Simplex {
    /// Makes a column basic, whatever its reduced cost, in the row that `minimise` would choose; no
    /// change where it is basic. False where no row blocks it, where it is no column of the program, and
    /// where the basis can't be inverted.
    pub fn force(&mut self, column: Column) -> bool {
        self.is_basic(column) || (self.program.has(column) && self.enter(column) == Step::Made)
    }

    /// Makes a column basic in a row, whatever becomes of the values. False, and no change, where there
    /// is no such row, where the column is basic or none of the program, and where the size of its entry
    /// in the row, in terms of the basic columns, isn't above 1e-8; false too where the basis can't be
    /// inverted.
    pub fn exchange(&mut self, row: usize, column: Column) -> bool {
        if self.is_basic(column) || !self.program.has(column) {
            return false;
        }
        self.read(column);
        if row >= self.basis.columns().len() || row >= self.direction.len() {
            return false;
        }
        self.direction[row].abs() > LEAST_PIVOT && self.make_basic(row, column)
    }

    /// Raises the basic values below 1e-9 by 1e-6 to 2e-6 each, and the right side with them, so that
    /// pivots make progress; in phase two those of artificial columns stay.
    pub fn perturb(&mut self) {
        self.is_perturbed = true;
        self.degenerate = 0;
        copy(&mut self.chosen, self.basis.columns());
        let is_phase_one = self.program.is_phase_one();
        for (row, column) in self.chosen.iter().enumerate() {
            let is_moved = is_phase_one || !column.is_artificial();
            if is_moved && self.basis.is_zero(row) {
                let rise = PERTURBATION * (1.0 + self.draw.next());
                self.program.write_entries(*column, &mut self.entries);
                add_multiple(&mut self.right, rise, &self.entries);
                self.basis.raise(row, rise);
            }
        }
    }

    /// Makes a column basic, in the row that it takes first.
    pub(super) fn enter(&mut self, column: Column) -> Step {
        self.read(column);
        if !self.program.is_phase_one() {
            if let Some(row) = artificial_row(self.basis.columns(), &self.direction) {
                return self.make_step(row, column);
            }
        }
        let Some(row) = leaving_row(self.basis.columns(), self.basis.values(), &self.direction)
        else {
            return Step::Unblocked;
        };
        let length = self.basis.values()[row].max(0.0) / self.direction[row];
        self.degenerate = if length < LEAST_STEP {
            self.degenerate.saturating_add(1)
        } else {
            0
        };
        let step = self.make_step(row, column);
        if self.degenerate > MOST_DEGENERATE {
            self.perturb();
        }
        step
    }

    /// Makes the column that was read basic in a row.
    fn make_step(&mut self, row: usize, column: Column) -> Step
        requires row_in { row < self.old.basis.inverse.rows }
        requires tall { row < vec_len self.old.direction }
    {
        if self.make_basic(row, column) {
            Step::Made
        } else {
            Step::Singular
        }
    }

    /// Makes the column that was read basic in a row, and inverts the basis afresh from time to time.
    pub(super) fn make_basic(&mut self, row: usize, column: Column) -> bool
        requires row_in { row < self.old.basis.inverse.rows }
        requires tall { row < vec_len self.old.direction }
    {
        let leaving = self.basis.columns()[row];
        self.program.mark(leaving, false);
        self.program.mark(column, true);
        self.basis.pivot(row, column, &self.direction);
        self.pivots = self.pivots.saturating_add(1);
        self.updates = self.updates.saturating_add(1);
        self.updates < MOST_UPDATES || self.refactor()
    }
}
