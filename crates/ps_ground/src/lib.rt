//! Sentences over listed constants: their ground formulas, and what these say of structures.
#![tactic(auto)]

mod drafting;
mod laws;
mod limits;
mod mark;
mod mark_counts;
mod marks;
mod names;
mod spelling;

pub use drafting::draft_formula;
pub use laws::{
    atoms_go_by_their_names, bounds_over_structures_are_those_over_worlds,
    distributions_have_images, ground_formulas_keep_truth,
};
pub use limits::{MOST_MARKS, limits_have_these_numbers};
pub use mark::{GroundFault, GroundMark};
pub use mark_counts::counts;
pub use marks::ground_marks;
pub use names::names_are_short;
pub use spelling::{Spelling, nesting, spellings};
