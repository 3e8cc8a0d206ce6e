//! What is sought at a time.

/// What of an answer is sought at a time.
#[derive(Clone, Copy, PartialEq, Debug)]
pub enum Sought {
    /// Whether some distribution meets all sentences.
    Verdict,
    /// The bounds of the query of this number, counted from 1, of so many.
    Query { number: usize, of: usize },
    /// Which sentences clash.
    Clash,
    /// Which conditions no distribution gives weight.
    Conditions,
}
