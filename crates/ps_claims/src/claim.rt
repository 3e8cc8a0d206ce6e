//! Which claim of an answer.

/// A claim of an answer; queries are numbered from 1.
#[derive(Clone, Copy, Debug, PartialEq, Eq)]
pub enum Claim {
    /// That the answer has a part for each query where the problem is consistent, and none
    /// otherwise.
    Report,
    /// That the sentences are consistent, or that they are inconsistent.
    Verdict,
    /// That the query's evidence is impossible.
    Query { number: u32 },
    /// That the value of the lower side is the query's tightest lower bound.
    Lower { number: u32 },
    /// That the value of the upper side is the query's tightest upper bound.
    Upper { number: u32 },
}
