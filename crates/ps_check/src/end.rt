//! Why a report isn't accepted.
use ps_answer::LineKind;
use ps_valid::Refusal;
use thiserror::Error;

/// A report isn't accepted: a line is at fault, or a claim, or there was not enough memory to judge
/// it.
#[derive(Clone, Copy, Debug, PartialEq, Error)]
pub enum StreamEnd {
    /// The first line at fault, by its kind and its number from 1.
    #[error("line {line} of the report is at fault")]
    Line { kind: LineKind, line: u64 },
    /// The report hasn't the parts that are due, or a claim isn't valid.
    #[error("the answer is refused")]
    Refused(Refusal),
    /// There was not enough memory.
    #[error("not enough memory")]
    NoMemory,
}
