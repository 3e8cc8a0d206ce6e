//! How pivots end.

/// How the pivots ended.
#[derive(Clone, Copy, PartialEq, Eq, Debug, Drop)]
pub enum Settled {
    /// In phase one each basic artificial has value 0.
    Feasible,
    /// No column improves.
    AtRest,
    /// A column improves, and no pivot is left.
    OutOfPivots,
}
