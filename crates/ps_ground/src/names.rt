//! Which ground atoms have names that are too long.
ghost use Rattle.std.specs.Prelude.{◌↔◌, All, IsTrue};
ghost use Rattle.ps_ground.specs.Drafting.{IsShort};

use crate::mark::GroundMark;
use ps_meaning::LONGEST_NAME;

// Whether a mark's name isn't too long, where it is an atom.
fn is_short(mark: &GroundMark) -> bool
    ensures { IsTrue result ↔ IsShort mark.now }
{
    match mark {
        GroundMark::Name(name) => name.len() <= LONGEST_NAME,
        _ => true,
    }
}

/// Whether the names of all atoms among some marks are of at most `LONGEST_NAME` bytes.
pub fn names_are_short(marks: &[GroundMark]) -> bool
    ensures { IsTrue result ↔ All IsShort marks.now }
{
    marks.iter().all(is_short)
}
