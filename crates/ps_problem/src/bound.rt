//! Bounds on probabilities.
use ps_meaning::Side;

/// The probability of a formula, perhaps given a condition, against `num/den`, which is reduced and
/// at most 1. Formulas are numbers of nodes, from 0; `both` is the node of formula and condition
/// together, or `formula` where nothing is given.
#[derive(Clone, Copy, Debug, PartialEq, Eq)]
pub struct Bound {
    /// The node of the formula.
    pub formula: u32,
    /// The node of the condition, if there is one.
    pub given: Option<u32>,
    /// The node of formula and condition together, or `formula` where nothing is given.
    pub both: u32,
    /// Whether the probability is at least, at most or exactly the value.
    pub side: Side,
    /// The numerator of the value.
    pub num: u32,
    /// The denominator of the value.
    pub den: u32,
}
