//! Whole multiples of numbers.
use ps_io::List;

/// A common multiple of the denominators of some numbers, and the whole number that each makes with
/// it.
#[derive(Drop)]
pub(crate) struct Scaled {
    /// The common multiple of the denominators.
    pub multiple: u128,
    /// Each number times the multiple, in order.
    pub numbers: List<i128>,
}
