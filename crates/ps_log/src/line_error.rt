//! Why bytes are no step, or no goal.
use ps_io::NoMemory as Lack;
use thiserror::Error;

/// Why bytes are no step, or no goal. They are tried in this order.
#[derive(Clone, Copy, Debug, PartialEq, Eq, Error, Drop)]
pub enum LineError {
    /// There is no line feed.
    #[error("the line has no end")]
    Truncated,
    /// A byte before the first line feed is none of the letter, digits, `-` and the space.
    #[error("a byte that no such line has")]
    BadByte,
    /// The line isn't the text of a step, or of a goal, with numbers of any size.
    #[error("not the text that is due")]
    NotCanonical,
    /// The line is such a text, and past the limits.
    #[error("a number or a list past its limit")]
    TooLarge,
    /// There was not enough memory.
    #[error("not enough memory")]
    NoMemory,
}

/// Why bytes are no step.
pub type StepError = LineError;

/// Why bytes are no goal.
pub type GoalError = LineError;

impl From<Lack> for LineError {
    ghost use Rattle.std.specs.Prelude.{◌≡◌};
    ghost use Rattle.ps_log.specs.declared.line_error.LineError.TheVariants.{NoMemory};

    ghost from_gives = { λ _ e. e ≡ NoMemory };

    fn from(_: Lack) -> LineError {
        LineError::NoMemory
    }
}
