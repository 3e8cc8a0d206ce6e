//! Answers to problems: the verdict, and the tightest bounds of the queries; and that what a run
//! answers can be written as a report, and read back.
#![tactic(auto)]

mod laws;
mod solving;
mod starting;

pub use laws::answers_are_reported;
pub use ps_generation::Limits;
pub use solving::{query_part, solve, verdict_part};
