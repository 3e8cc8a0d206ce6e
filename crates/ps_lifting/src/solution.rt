//! A solution over one denominator.
use ps_io::List;

/// A solution over one denominator: each unknown is its numerator over the denominator.
#[derive(Drop)]
pub struct Solution {
    /// The numerators of the unknowns, in their order; at most 2^90 in size.
    pub numerators: List<i128>,
    /// The denominator of all of them, from 1 to 2^90.
    pub denominator: i128,
}
