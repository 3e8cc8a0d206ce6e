//! The phases of a run.

/// A phase of a run.
#[derive(Clone, Copy, PartialEq, Eq, Debug, Drop)]
pub enum Phase {
    /// Phase one: it looks for a table whose basic artificials have value 0.
    One,
    /// Phase two, for the least value of the query.
    Lower,
    /// Phase two, for the greatest value of the query.
    Upper,
}
