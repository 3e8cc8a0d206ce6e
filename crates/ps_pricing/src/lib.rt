//! Pricing: a world in which a dual's combination is at least 1, or the refutation that there is
//! one, unless the search for it was spent.
#![tactic(auto)]

mod alone;
mod pricer;
mod pricing;
mod sought;

pub use pricer::Pricer;
pub use pricing::Pricing;
