//! Why a step is refused.
use thiserror::Error;

/// Why a step isn't taken: the id comes first, then the literals, then the hints in their order,
/// and then the end; want of memory may come at any.
#[derive(Clone, Copy, Debug, PartialEq, Error)]
pub enum StepRefused {
    /// The id isn't the next one.
    #[error("the id is not the next one")]
    IdNotNext,
    /// A literal's variable is past the last, or a variable stands twice.
    #[error("a literal's variable is past the last or stands twice")]
    BadLit,
    /// The hint is 0, or not below the step's id.
    #[error("no constraint {hint} is known")]
    UnknownHint { hint: u64 },
    /// The hint stands after a violated one, or is neither violated nor forces a literal.
    #[error("the hint {hint} does nothing")]
    HintIdle { hint: u64 },
    /// No hint is violated.
    #[error("no hint is violated")]
    NoConflict,
    /// There was not enough memory.
    #[error("not enough memory")]
    NoMemory,
}
