//! What is answered of weighted clauses, and the check that it is so.
#![tactic(auto)]

mod answer;
mod checking;
mod judging;
mod laws;
mod max_error;
mod running;

pub use answer::MaxAnswer;
pub use checking::check_max;
pub use laws::{found_answers_are_accepted, unfaulted_answers_are_right};
pub use max_error::MaxError;
