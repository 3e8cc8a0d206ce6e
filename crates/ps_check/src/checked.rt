//! What is found of an input.
use ps_answer::LineKind;
use ps_read::ReadKind;
use ps_valid::{Accepted, Refusal};

/// What is found of an input.
#[derive(Clone, Copy, Debug, PartialEq)]
pub enum Checked {
    /// Each claim of the report is valid.
    Accepted(Accepted),
    /// A claim isn't valid, or the report hasn't the parts that are due.
    Refused(Refusal),
    /// The report's first line at fault, by its kind and its number from 1.
    RefusedLine {
        kind: LineKind,
        line: u64,
    },
    /// No problem is read at the front, for this kind of refusal at this place.
    Unreadable {
        kind: ReadKind,
        line: u32,
        column: u32,
    },
}
