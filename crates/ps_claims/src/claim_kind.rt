//! What a dual shows.

/// What a dual shows.
#[derive(Clone, Copy, PartialEq, Eq, Debug, Drop)]
pub enum ClaimKind {
    /// That no distribution that meets the bounds gives the evidence positive probability.
    Nothing,
    /// That a value is a lower bound of a query.
    Lower,
    /// That a value is an upper bound of a query.
    Upper,
}
