//! Linear programs over floats, and the revised simplex method on them. The numbers are guesses, to be
//! judged exactly afterwards: what is proved is that each call is safe and ends.
#![tactic(auto)]

mod basis;
mod column;
mod draw;
mod ending;
mod limits;
mod matrix;
mod program;
mod ratio;
mod simplex;
mod vectors;

pub use column::{Column, RowKind};
pub use ending::Ending;
pub use limits::{MOST_ROWS, limits_have_these_numbers};
pub use program::Phase;
pub use simplex::Simplex;
