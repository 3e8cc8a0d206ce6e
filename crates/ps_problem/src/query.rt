//! Queries of a problem.
use ps_io::List;

/// A query for the probability of a formula, perhaps given a condition; formulas are numbers of
/// nodes as in a bound.
#[derive(Clone, Copy, Debug, PartialEq, Eq)]
pub struct Query {
    /// The node of the formula.
    pub formula: u32,
    /// The node of the condition, if there is one.
    pub given: Option<u32>,
    /// The node of formula and condition together, or `formula` where nothing is given.
    pub both: u32,
}

/// Queries in order.
pub type Queries = List<Query>;
