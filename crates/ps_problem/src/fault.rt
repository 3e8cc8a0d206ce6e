//! Why a problem was not made.
ghost use Rattle.std.specs.Prelude.{◌≡◌};
ghost use Rattle.ps_problem.specs.declared.fault.Fault.TheVariants as faults;

use crate::excess::Excess;
use ps_io::NoMemory;

/// What there was too much of, or that there was not enough memory.
#[derive(Clone, Copy, Debug, PartialEq, Eq)]
pub(crate) enum Fault {
    TooMany(Excess),
    NoMemory,
}

impl From<NoMemory> for Fault {
    ghost from_gives = { λ _ e. e ≡ faults.NoMemory };

    fn from(_: NoMemory) -> Fault {
        Fault::NoMemory
    }
}
