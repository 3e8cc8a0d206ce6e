//! Reads problem texts: a parser fills the draft of a problem from tokens, and a text is read whole,
//! or at the front of bytes that come piece by piece.
#![tactic(auto)]

mod formula_parser;
mod front;
mod front_laws;
mod item_parser;
mod item_so_far;
mod operator;
mod parse_error;
mod parse_laws;
mod parser;
mod piece;
mod read_error;
mod read_laws;
mod reader;
mod reading;
mod stage;
mod value;

pub use front::Front;
pub use front_laws::problem_parts_read_alone;
pub use parse_error::ParseError;
pub use parse_laws::the_machine_stands_for_a_derivation;
pub use parser::Parser;
pub use ps_text::{ReadKind, What};
pub use read_error::ReadError;
pub use read_laws::bytes_have_one_reading;
pub use reader::Reader;
pub use reading::{problem_of, read_problem, read_whole};
