//! Terms of linear sentences.

/// A fraction that may be below 0, in lowest terms.
#[derive(Clone, Copy, Debug, PartialEq, Eq)]
pub struct Signed {
    /// The numerator.
    pub num: i64,
    /// The denominator.
    pub den: u32,
}

/// A coefficient times the probability of a formula, by the formula's number in a draft.
#[derive(Clone, Copy, Debug, PartialEq, Eq)]
pub struct Term {
    /// The number of the formula.
    pub formula: u32,
    /// The coefficient.
    pub coefficient: Signed,
}
