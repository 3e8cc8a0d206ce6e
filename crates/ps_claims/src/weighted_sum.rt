//! A sum of weighted literals and a whole number: the combination of a claim and bounds.
use ps_pb::WeightedLits;

/// A whole number and weighted literals: in an assignment its value is the number and the weights
/// of the true literals.
#[derive(Drop)]
pub struct Combination {
    /// The literals and their weights.
    pub terms: WeightedLits,
    /// The whole number.
    pub base: i128,
}
