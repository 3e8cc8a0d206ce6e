//! The commands on weighted clauses: an optimum is looked for, and an answer is judged.
#![tactic(auto)]

mod asked;
mod judged;
mod laws;
mod reply;
mod splitting;
mod writing;

pub use asked::reply_to_maxsat;
pub use judged::reply_to_check_maxsat;
pub use laws::{answers_are_accepted, one_output_is_due};
pub use reply::MaxReply;
pub use writing::write_max_reply;
