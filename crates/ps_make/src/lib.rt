//! Problems of a chosen size: chains of atoms, each of which almost surely implies the next.
#![tactic(auto)]

mod laws;
mod made;

pub use laws::made_texts_are_read;
pub use made::{MOST_LINKS, limits_have_these_numbers, make_text};
