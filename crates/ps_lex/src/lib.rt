//! A lexer: cuts bytes into the tokens of problem texts, one byte after the other, and takes no
//! memory; and the expected tokens: which may be next, and why others are refused.
#![tactic(auto)]

mod bytes;
mod digits;
mod expect_laws;
mod gap;
mod judge;
mod lex_laws;
mod lexer;
mod mode;
mod position;
mod stack;
mod state;
mod step;
mod stepping;
mod token;
mod word;

pub use digits::{Digits, GREAT_VALUE, MANY_DIGITS};
pub use expect_laws::kept_tokens_are_judged;
pub use lex_laws::pieces_are_told;
pub use lexer::Lexer;
pub use position::Position;
pub use stack::Stack;
pub use state::State;
pub use token::{Numeral, Token};
pub use word::{KEPT_LETTERS, Word};
