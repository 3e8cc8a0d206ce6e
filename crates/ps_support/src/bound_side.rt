//! The two bounds of a query.

/// A bound of a query.
#[derive(Clone, Copy, PartialEq, Eq, Debug)]
pub enum BoundSide {
    /// The lower one.
    Lower,
    /// The upper one.
    Upper,
}
