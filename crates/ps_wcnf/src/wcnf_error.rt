//! Why bytes are no text of weighted clauses.
use ps_io::NoMemory as Lack;
use thiserror::Error;

/// What is wrong with a line.
#[derive(Clone, Copy, Debug, PartialEq, Eq)]
pub enum WcnfKind {
    /// The line has none of the forms.
    BadLine,
    /// The line has one of the forms, and with it the text passes a limit.
    TooLarge,
}

/// Why bytes are no text of weighted clauses.
#[derive(Clone, Copy, Debug, PartialEq, Eq, Error)]
pub enum WcnfError {
    /// The first line at fault, by its number from 1.
    #[error("line {line} is no line of weighted clauses, or past a limit")]
    At { kind: WcnfKind, line: u64 },
    /// There was not enough memory.
    #[error("not enough memory")]
    NoMemory,
}

impl From<Lack> for WcnfError {
    ghost use Rattle.std.specs.Prelude.{◌≡◌};
    ghost use Rattle.ps_wcnf.specs.declared.wcnf_error.WcnfError.TheVariants.{NoMemory};

    ghost from_gives = { λ _ e. e ≡ NoMemory };

    fn from(_: Lack) -> WcnfError {
        WcnfError::NoMemory
    }
}
