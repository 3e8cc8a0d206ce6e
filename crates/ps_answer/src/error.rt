//! Why bytes are no report.
use ps_io::NoMemory as Lack;
use thiserror::Error;

/// What is wrong with a line.
#[derive(Clone, Copy, PartialEq, Eq, Debug, Drop)]
pub enum LineKind {
    /// The bytes end before the line's line feed, or before a line that is due.
    Truncated,
    /// The line's first word isn't one that is due.
    BadLine,
    /// The first word is due, and the rest is no such line as it is written.
    NotCanonical,
    /// A number or a count is past its limit.
    TooLarge,
    /// Bytes stand behind the last line.
    MoreAfterEnd,
}

/// Why bytes aren't read as a report.
#[derive(Clone, Copy, Debug, PartialEq, Eq, Error, Drop)]
pub enum ReportError {
    /// The first line at fault, by its number from 1.
    #[error("line {line} is at fault")]
    At { kind: LineKind, line: u64 },
    /// There was not enough memory.
    #[error("not enough memory")]
    NoMemory,
}

impl From<Lack> for ReportError {
    ghost use Rattle.std.specs.Prelude.{◌≡◌};
    ghost use Rattle.ps_answer.specs.declared.error.ReportError.TheVariants.{NoMemory};

    ghost from_gives = { λ _ e. e ≡ NoMemory };

    fn from(_: Lack) -> ReportError {
        ReportError::NoMemory
    }
}
