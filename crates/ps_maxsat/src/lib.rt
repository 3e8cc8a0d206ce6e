//! Weighted MaxSAT by repeated goals.
#![tactic(auto)]

mod limits;
mod pricing;
mod problem;
mod spacing;

pub use limits::{MOST_TOTAL, limits_have_these_numbers};
pub use pricing::{Priced, best, best_from};
pub use problem::Wcnf;
