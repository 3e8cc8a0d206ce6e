//! A pivot.
ghost use Rattle.std.specs.Prelude.{◌≡◌, ◌<◌, length};
ghost use Rattle.ps_table.specs.Grids.{enters};

use ps_frac::Fraction;

/// The row that leaves, and the entries of the column that enters.
#[derive(Drop)]
pub(crate) struct Pivot {
    pub(crate) row: usize,
    pub(crate) entering: Vec<Fraction>,
}

impl Pivot {
    /// The entry of a row in the column that enters.
    pub(crate) fn entry(&self, row: usize) -> Fraction
        requires row { row < length self.now.entering.items }
        ensures value { result ≡ enters self.now row }
    {
        self.entering[row]
    }
}
