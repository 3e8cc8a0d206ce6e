//! What a float program is to find.

use crate::truth::is_true;
use ps_problem::Query;

/// What a float program is to find.
#[derive(Clone, Copy, PartialEq, Eq, Debug)]
pub enum Aim {
    /// A distribution that meets the bounds.
    Consistent,
    /// The least probability of a query.
    Least(Query),
    /// The greatest probability of a query.
    Greatest(Query),
}

impl Aim {
    /// The node of the evidence, if there is one.
    pub fn evidence(self) -> Option<u32> {
        match self {
            Aim::Consistent => None,
            Aim::Least(query) | Aim::Greatest(query) => query.given,
        }
    }

    /// The query, if there is one.
    pub fn query(self) -> Option<Query> {
        match self {
            Aim::Consistent => None,
            Aim::Least(query) | Aim::Greatest(query) => Some(query),
        }
    }

    /// What a world costs, where the costs are minimised.
    pub fn cost(self, truth: &[bool]) -> i64 {
        match self {
            Aim::Consistent => 0,
            Aim::Least(query) => { if is_true(truth, query.both) { 1 } else { 0 } }
            Aim::Greatest(query) => { if is_true(truth, query.both) { -1 } else { 0 } }
        }
    }
}
