//! Why words are refused.
use ps_io::NoMemory as Lack;

/// Why words aren't what is due.
#[derive(Clone, Copy, PartialEq, Eq, Debug, Drop)]
pub enum LineFault {
    /// They aren't written so.
    NotCanonical,
    /// They are, and a limit is passed.
    TooLarge,
    /// There was not enough memory.
    NoMemory,
}

impl LineFault {
    ghost use Rattle.std.specs.Prelude.{◌≡◌};
    ghost use Rattle.ps_reader.specs.Kinds.{of_any_size};

    /// That a number is too large says no more than that it isn't the one that is due.
    pub(crate) fn of_any_size(self) -> LineFault
        ensures { result ≡ of_any_size self }
    {
        match self {
            LineFault::NotCanonical => LineFault::NotCanonical,
            LineFault::TooLarge => LineFault::NotCanonical,
            LineFault::NoMemory => LineFault::NoMemory,
        }
    }
}

impl From<Lack> for LineFault {
    ghost use Rattle.std.specs.Prelude.{◌≡◌};
    ghost use Rattle.ps_reader.specs.declared.line_fault.LineFault.TheVariants.{NoMemory};

    ghost from_gives = { λ _ e. e ≡ NoMemory };

    fn from(_: Lack) -> LineFault {
        LineFault::NoMemory
    }
}
