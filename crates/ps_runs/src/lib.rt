//! Runs of the column generation: the rows and columns of bounds and a query, which events are
//! lawful, and the certificates that tables give.
//!
//! The phases of a run over the solver's tables: the homes, the columns of worlds and their costs;
//! how phases go on, when a part may be open, which answers are lawful, and a limit of pivots that
//! no lawful run reaches.
//!
//! A call of a law does nothing: its contract is the law.
#![tactic(auto)]

mod column;
mod costs;
mod homes;
mod limits;
mod phase_laws;
mod pivot_limit;
mod rows;
mod run_laws;
mod state;

pub use column::column_of;
pub use costs::{costs_for, world_cost, world_in};
pub use homes::homes_of;
pub use limits::Limits;
pub use phase_laws::{lawful_ends, licences, node_columns, phases_go_on, run_tables};
pub use pivot_limit::enough;
pub use rows::kept_rows;
pub use run_laws::{
    composed_runs, gains, kept_sentences, phase_ends, phase_starts, priced_worlds, reached_stages,
    reduced_costs, valid_ends,
};
pub use state::State;
