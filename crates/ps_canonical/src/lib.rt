//! The canonical text of a problem, also as one of version 2, and of its sentences and
//! probabilities.
#![tactic(auto)]

mod connective;
mod formulas;
mod laws;
mod lines;
mod task;
mod terms;
mod values;
mod writing;

pub use laws::equal_texts_are_of_equal_problems;
pub use lines::{write_probability, write_statement};
pub use writing::{canonical_text, upgraded_text};
