//! Marks of ground formulas.
ghost use Rattle.std.specs.Prelude.{◌≡◌};
ghost use Rattle.ps_ground.specs.declared.mark.GroundFault.TheVariants as fault;

use ps_first_order::Connective;
use ps_io::{List, NoMemory};

/// A mark of a ground formula in postfix order.
#[derive(Debug, Drop)]
pub enum GroundMark {
    /// `true`.
    True,
    /// `false`.
    False,
    /// The atom of this name.
    Name(List<u8>),
    /// `!` over the last formula.
    Not,
    /// A connective between the last two formulas.
    Joined(Connective),
}

/// Why a formula has no ground formula within the limits.
#[derive(Clone, Copy, Debug, PartialEq, Eq)]
pub enum GroundFault {
    /// There are more marks than there may be.
    TooLarge,
    /// Memory ran out.
    NoMemory,
}

impl From<NoMemory> for GroundFault {
    ghost from_gives = { λ _ e. e ≡ fault.NoMemory };

    fn from(_: NoMemory) -> GroundFault {
        GroundFault::NoMemory
    }
}
