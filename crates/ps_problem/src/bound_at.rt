//! The bounds of sentences.
use crate::{Bound, Linear};

/// A bound of a problem, in its sentence.
#[derive(Clone, Copy, Debug)]
pub enum BoundAt<'p> {
    /// A bound on one probability.
    Plain(&'p Bound),
    /// The bound of a linear sentence: where `upper` stands, the sum is at most the upper right side;
    /// else it is on the sentence's side of the right side.
    Linear { of: &'p Linear, upper: bool },
}
