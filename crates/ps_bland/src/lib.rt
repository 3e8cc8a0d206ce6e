//! Bland's rule: pivots until phase one ends, no column improves, or no pivot is left.
#![tactic(auto)]

mod columns;
mod entering;
mod feasible;
mod laws;
mod leaving;
mod ratios;
mod settled;
mod settling;

pub use laws::{due_places, ready_tables};
/// The phases of a run.
pub use ps_simplex::Phase;
/// Why the pivots were broken off.
pub use ps_table::TableError as SettleError;
pub use settled::Settled;
pub use settling::settle;

#[cfg(test)]
mod tests;
