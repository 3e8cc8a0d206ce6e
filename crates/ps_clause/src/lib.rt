//! The clause form of formulas: a variable for each node, and clauses that say what the nodes mean;
//! and the words in which contracts speak of it.
#![tactic(auto)]

mod clauses;
mod extension;
mod form;
mod laws;

pub use clauses::clauses_of;
pub use extension::{names_of, world_of};
pub use form::ClauseForm;
pub use laws::{
    atoms_decide_forms, clauses_are_of_variables, clauses_say_what_nodes_mean,
    forms_and_goals_are_known, worlds_of_assignments,
};
