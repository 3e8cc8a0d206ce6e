//! The limits of a run.

/// How many pivots a run makes at most, and how many clauses each of its searches learns at most.
#[derive(Clone, Copy, Debug, PartialEq, Eq, Drop)]
pub struct Limits {
    /// The pivots of a run.
    pub pivots: u64,
    /// The clauses that a search learns.
    pub conflicts: u64,
}
