//! The entries of worlds.
ghost use Rattle.std.specs.Prelude.{◌≡◌, IfOk};

use ps_io::{List, NoMemory};
use std::alloc::Global;

/// The entries of a world, one for each row.
pub(crate) type Entries = List<i64>;

/// Equal entries.
pub(crate) fn entries_copy(alloc: Global, entries: &[i64]) -> Result<Entries, NoMemory>
    ensures { IfOk result (λ copy. copy ≡ entries.now) }
{
    Ok(List::from_vec(entries.to_vec(alloc)?))
}

/// Equal entries of each world.
pub(crate) fn worlds_copy(alloc: Global, worlds: &[Entries]) -> Result<List<Entries>, NoMemory>
    ensures { IfOk result (λ copy. copy ≡ worlds.now) }
{
    let mut copy = List::new(alloc);
    for entries in worlds {
        copy.push(entries_copy(alloc, entries.as_slice())?)?;
    }
    Ok(copy)
}
