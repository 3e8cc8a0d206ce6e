//! Lists with room for what is read.
ghost use Rattle.std.specs.Prelude.{◌≡◌, [], IfOk};

use ps_io::{List, NoMemory};
use std::alloc::Global;

/// An empty list with room for so many items.
pub(crate) fn list_with_room<T>(alloc: Global, count: usize) -> Result<List<T>, NoMemory>
    ensures { IfOk result (λ list. list ≡ []) }
{
    Ok(List::from_vec(Vec::with_capacity(alloc, count)?))
}
