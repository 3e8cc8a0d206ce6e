//! Messages that mend: where bytes are no problem, what was found and what was expected, the line
//! with a caret, and a hint for the errors that people really make; and warnings about a problem.
#![tactic(auto)]

mod about;
mod byte_hints;
mod caret;
mod choice;
mod close_names;
mod disjunctions;
mod expectation;
mod formula_hints;
mod found;
mod glyph;
mod hint;
mod item_hints;
mod items;
mod kind;
mod letter_hints;
mod mentions;
mod message;
mod mistypes;
mod names;
mod names_warned;
mod number_hints;
mod part;
mod place;
mod refusal;
mod refusals;
mod scanner;
mod sentences;
mod sign_hints;
mod spot;
mod starts;
mod sum_hints;
mod uses;
mod warning;
mod warnings;
mod words;

pub use about::{idle_warning, write_idle_condition};
pub use hint::Hint;
pub use kind::{KINDS, Wanted, WarningKind};
pub use refusal::{refusal_message, write_refusals};
pub use refusals::{MOST_TOLD, Refusal, all_refusals};
pub use starts::{query_lines, sentence_lines};
pub use warning::{Warning, write_warning_lines};
pub use warnings::{warnings_about, write_warnings};
