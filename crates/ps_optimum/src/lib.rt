//! The optimum of weighted clauses: a search for the greatest value, and one for more than is in
//! hand, until that is refuted or spent.
#![tactic(auto)]

mod hand;
mod optimizing;
mod seeking;
mod setting;

pub use optimizing::optimum;
pub use ps_log::MOST_CONFLICTS;
