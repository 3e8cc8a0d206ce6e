//! Values below 0 are brought back.
ghost use Rattle.std.specs.Prelude.{◌<◌};

use crate::ending::Ending;
use crate::limits::LEAST_PIVOT;
use crate::ratio::infeasible_row;
use crate::simplex::Simplex;

impl Simplex {
    /// Goes back to the right side without perturbation with an inverse made afresh, and brings the
    /// values that fell below 0 back, by so many pivots at most: the dual simplex method, C. E. Lemke
    /// 1954.
    ///
    /// The row that is left is that of the least value, where one is below -1e-9. The column that enters
    /// is the one of the least reduced cost over the size of its entry in that row, of those below -1e-8;
    /// where two are equal up to 1e-10, the one of the larger entry.
    ///
    /// `Optimal`: no value is below -1e-9, and the cost is least where it was so before. `OutOfPivots`:
    /// the pivots are made. `Unstable`: the basis can't be inverted, or no column enters, as where the
    /// rows can't be met.
    pub fn clean(&mut self, most_pivots: u64) -> Ending {
        if !self.is_clean() && !self.restore() {
            return Ending::Unstable;
        }
        for _ in 0..most_pivots {
            let Some(row) = infeasible_row(self.basis.values()) else {
                return Ending::Optimal;
            };
            if !self.repair(row) {
                return Ending::Unstable;
            }
        }
        Ending::OutOfPivots
    }

    /// Makes a column basic in a row whose value is below 0, where one is fit for it.
    fn repair(&mut self, row: usize) -> bool
        requires { row < self.old.basis.inverse.rows }
    {
        self.find_duals();
        let inverse_row = self.basis.inverse_row(row);
        let found = self
            .program
            .entering_in_row(LEAST_PIVOT, inverse_row, &self.duals);
        let Some(column) = found else {
            return false;
        };
        self.read(column);
        row < self.direction.len() && self.make_basic(row, column)
    }
}
