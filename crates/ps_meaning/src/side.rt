//! Sides of a value.

/// Whether a probability is bounded from below, from above, or fixed.
#[derive(Clone, Copy, Debug, PartialEq, Eq)]
pub enum Side {
    /// At least the value.
    AtLeast,
    /// At most the value.
    AtMost,
    /// The value itself.
    Exactly,
}
