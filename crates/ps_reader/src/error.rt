//! Why a line isn't read.
use ps_answer::LineKind;
use thiserror::Error;

/// Why the line at the front isn't read.
#[derive(Clone, Copy, PartialEq, Eq, Debug, Drop, Error)]
pub enum LineError {
    /// The line is at fault.
    #[error("the line is at fault")]
    Fault(LineKind),
    /// There was not enough memory.
    #[error("not enough memory")]
    NoMemory,
}
