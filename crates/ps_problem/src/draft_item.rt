//! Items over formulas by the numbers that a draft gave them.
use crate::{Side, Signed, Term};
use ps_io::List;

/// A sentence: the probability of a formula, perhaps given a condition, on a side of `num/den`;
/// with an upper value, at least `num/den` and at most that.
#[derive(Clone, Copy, Debug, PartialEq, Eq)]
pub(crate) struct DraftSentence {
    pub(crate) formula: u32,
    pub(crate) given: Option<u32>,
    pub(crate) side: Side,
    pub(crate) num: u32,
    pub(crate) den: u32,
    pub(crate) upper: Option<(u32, u32)>,
}

/// A linear sentence: the sum of its terms on a side of a value; with an upper value, at least the
/// one and at most the other.
#[derive(Debug, Drop)]
pub(crate) struct DraftLinear {
    pub(crate) terms: List<Term>,
    pub(crate) side: Side,
    pub(crate) right: Signed,
    pub(crate) upper: Option<Signed>,
}

/// A query for the probability of a formula, perhaps given a condition.
#[derive(Clone, Copy, Debug, PartialEq, Eq)]
pub(crate) struct DraftQuery {
    pub(crate) formula: u32,
    pub(crate) given: Option<u32>,
}

/// A sentence or a query of a draft.
#[derive(Debug, Drop)]
pub(crate) enum DraftItem {
    Sentence(DraftSentence),
    Linear(DraftLinear),
    Query(DraftQuery),
}
