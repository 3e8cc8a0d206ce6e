//! On which sentences a bound of a query rests, and in which worlds it is reached.
//!
//! A bound that is proved rests on the sentences whose multipliers in its dual aren't 0: it holds in
//! every distribution that meets these alone.
#![tactic(auto)]

mod bound_side;
mod example;
mod places;
mod rates;
mod support;

pub use bound_side::BoundSide;
pub use example::{Example, Likely, example_of};
pub use places::{BoundPlace, End};
pub use support::{Support, Supporting, support_of};
