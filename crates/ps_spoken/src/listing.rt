//! Items of a list, with commas between them.
ghost use Rattle.ps_spoken.specs.Numbers.{Says};
ghost use Rattle.ps_spoken.specs.Listings.{comma_before};

use crate::numbers::append;
use ps_io::NoMemory;

/// Writes a comma before the item at a place, but not before the first.
pub fn write_comma(out: &mut Vec<u8>, place: usize) -> Result<(), NoMemory>
    ensures { Says result out.old.items out.new.items (comma_before place) }
{
    if place == 0 {
        return Ok(());
    }
    append(out, b",")
}
