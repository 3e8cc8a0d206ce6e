//! How a run of pivots ends.

/// How a run of pivots ends. Each call that answers it says when each of them comes.
#[derive(Clone, Copy, PartialEq, Eq, Debug)]
pub enum Ending {
    /// No column improves, and no value is below 0, up to the tolerances.
    Optimal,
    /// A column improves without end.
    Unbounded,
    /// The pivots that it may make are made.
    OutOfPivots,
    /// The basis can't be inverted, or no column brings a negative value to 0.
    Unstable,
}
