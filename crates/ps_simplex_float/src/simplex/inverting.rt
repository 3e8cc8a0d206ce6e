//! The inversion of the basis.

use crate::column::Column;
use crate::limits::MOST_UPDATES;
use crate::simplex::Simplex;
use crate::vectors::copy;

impl Simplex {
    /// Goes back to the right side without perturbation, and inverts the basis afresh. False where it
    /// can't be inverted. The values may be below 0: `clean` brings them back.
    pub fn reset(&mut self) -> bool {
        self.restore()
    }

    /// Replaces the entries of the added columns in a row, in order; columns past these entries keep
    /// theirs. Then the same as `reset`.
    pub fn replace_row(&mut self, row: usize, entries: &[f64]) -> bool {
        self.program.replace_row(row, entries);
        self.restore()
    }

    /// Goes back to the right side without perturbation, and inverts the basis afresh.
    pub(super) fn restore(&mut self) -> bool {
        self.is_perturbed = false;
        self.degenerate = 0;
        copy(&mut self.right, &self.target);
        self.refactor()
    }

    /// Inverts the basis afresh, where that is possible, and solves for its values.
    pub(super) fn refactor(&mut self) -> bool {
        copy(&mut self.chosen, self.basis.columns());
        self.basis.reset();
        if !self.place_units() || !self.place_added() {
            self.basis.set_columns(&self.chosen);
            self.updates = MOST_UPDATES;
            return false;
        }
        self.updates = 0;
        self.basis.solve(&self.right);
        true
    }

    /// Gives the chosen unit columns their rows.
    fn place_units(&mut self) -> bool {
        for column in &self.chosen {
            let is_placed = match *column {
                Column::Slack(row) | Column::Artificial(row) => {
                    self.basis.place_unit(row, 1.0, *column)
                }
                Column::NegativeArtificial(row) => self.basis.place_unit(row, -1.0, *column),
                Column::Added(_) => true,
            };
            if !is_placed {
                return false;
            }
        }
        true
    }

    /// Gives the chosen added columns the other rows.
    fn place_added(&mut self) -> bool {
        for column in &self.chosen {
            if let Column::Added(_) = *column {
                self.program.write_entries(*column, &mut self.entries);
                self.basis
                    .write_direction(&self.entries, &mut self.direction);
                if !self.basis.place_added(*column, &self.direction) {
                    return false;
                }
            }
        }
        true
    }
}
