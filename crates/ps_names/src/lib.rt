//! Names of files and options as a terminal can be given them.
#![tactic(auto)]

mod glyph;
mod name;

pub use name::{MOST_COLUMNS, shown_name};
