//! Changes of cells.
ghost use Rattle.std.specs.Prelude.{◌≡◌, ◌<◌, length, set};
ghost use Rattle.ps_table.specs.Changes.{written, AreInside};

use ps_frac::Fraction;

/// A cell's place among all cells, and its new entry.
#[derive(Clone, Copy, Drop)]
pub(crate) struct Change {
    pub(crate) place: usize,
    pub(crate) entry: Fraction,
}

/// Writes a change into the cells.
fn write(cells: &mut Vec<Fraction>, change: &Change)
    requires inside { change.now.place < length cells.old.items }
    ensures written { cells.new.items ≡ set cells.old.items change.now.place change.now.entry }
{
    cells[change.place] = change.entry;
}

/// Writes changes into the cells.
pub(crate) fn write_all(cells: &mut Vec<Fraction>, changes: &[Change])
    requires inside { AreInside cells.old.items changes.now }
    ensures written { cells.new.items ≡ written cells.old.items changes.now }
    ensures count { length cells.new.items ≡ length cells.old.items }
{
    for change in changes {
        write(cells, change);
    }
}
