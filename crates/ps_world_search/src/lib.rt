//! Search by clauses for worlds in which weighted nodes of formulas sum to enough: decisions, propagation,
//! and a clause that is learned from each conflict. What is learned of the formulas alone serves each
//! further search. A refutation is sought with its steps. What a search answers is a guess, to be judged
//! exactly afterwards: what is proved is that each call is safe and ends.
#![tactic(auto)]

mod analysis;
mod budget;
mod causes;
mod clause_search;
mod clauses;
mod ended;
mod gates;
mod goal_sum;
mod hints;
mod lit;
mod order;
mod refutation;
mod steps;
mod trail;
mod variables;
mod watches;
mod world_search;

pub use ended::Ended;
pub use refutation::{Refutation, Refuted};
pub use world_search::WorldSearch;
