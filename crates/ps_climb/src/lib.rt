//! Local search for worlds in which weighted nodes of formulas sum to more than a threshold, and of few
//! atoms a look at every world. What it
//! finds is a guess, to be judged exactly afterwards: what is proved is that each call is safe and ends,
//! and that its worlds have a value for each atom.
#![tactic(auto)]

mod choice;
mod demand;
mod draw;
mod goal;
mod local_search;
mod neighbours;
mod nodes;
mod truths;

pub use demand::Demand;
pub use draw::{Draw, drawn_world};
pub use goal::Goal;
pub use local_search::LocalSearch;
