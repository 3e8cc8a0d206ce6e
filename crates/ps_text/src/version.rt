//! Versions of the problem text.

/// A version of the text.
#[derive(Clone, Copy, Debug, PartialEq, Eq)]
pub enum Version {
    /// `1`: sentences bound one probability.
    One,
    /// `2`: sentences may be linear.
    Two,
}
