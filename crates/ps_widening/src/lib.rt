//! Widenings of a problem's bounds: by how much distributions miss them, in their common unit; and
//! the law that no widening is less than the sure loss of a Dutch book (G. De Bona, M. Finger,
//! "Measuring inconsistency in probabilistic logic", Artificial Intelligence 227, 2015).
#![tactic(auto)]

mod common_rows;
mod laws;
mod scaling;
mod units;

pub use common_rows::CommonRows;
pub use laws::{books_bound_widenings, least_widenings_bound_sums};
pub use scaling::scaled_rows;
pub use units::unscaled;
