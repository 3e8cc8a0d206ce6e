//! Explanations: sentences of a problem that can't be met together, each of which is needed for
//! it, and what is left without one of them.
#![tactic(auto)]

mod conflict;
mod explained;
mod explaining;
mod found;
mod irreducible;
mod means;
mod met;
mod numbers;
mod outcome;
mod rests;
mod used;
mod witnesses;
mod writing;

pub use explained::{Explained, Models, Numbers};
pub use explaining::explain;
pub use ps_generation::Limits;
pub use rests::verdict_without;
pub use writing::write_explanation;
