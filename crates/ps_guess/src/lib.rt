//! Guesses of claims: each is tried, and answered only where it is shown; and answers to problems by
//! guesses: each part is guessed, and answered where the guess is shown; what no guess shows comes
//! of a lawful run. A part may be answered alone, and as far as time is left.
#![tactic(auto)]

mod answering;
mod beside;
mod bound;
mod by_turns;
mod found;
mod found_parts;
mod in_time;
mod known;
mod limits;
mod model;
mod nothing;
mod searching;
mod timed;
mod trial;
mod trials;
mod turns;
mod verdicts;
mod watch;

pub use answering::{answer, answer_part, answer_verdict, last_verdict, run_beside};
pub use by_turns::{Pending, guess_turn, nothing_in_time};
pub use found::{find_model, find_nothing, find_side};
pub use in_time::InTime;
pub use known::Known;
pub use ps_guesser::{Guess, Guesser, Progress};
pub use ps_query::Limits;
pub use timed::run_turn;
pub use trial::Trial;
pub use trials::Trials;
pub use turns::{MOST_TURNS, are_greatest, limits_at};
pub use verdicts::verdict_in_time;
pub use watch::{Watch, Work};
