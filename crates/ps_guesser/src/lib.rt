//! Guessers: what makes guesses about a problem. Nothing rests on what they guess.
#![tactic(auto)]

mod guesser;
mod progress;

pub use guesser::{Guess, Guesser};
pub use progress::Progress;
