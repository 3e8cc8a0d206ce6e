//! Weighted clauses: their text, what they say, and the clauses with weighted literals that say it.
#![tactic(auto)]

mod base;
mod checks;
mod draft;
mod form;
mod laws;
mod line;
mod reading;
mod shape;
mod spelling;
mod splitting;
mod text;
mod valued;
mod wcnf_error;
mod weighing;

pub use checks::check_text;
pub use laws::values_tell_costs;
pub use reading::read_wcnf;
pub use splitting::{next_line, next_word};
pub use text::{ClauseList, SoftList, WcnfText};
pub use valued::{ValuedForm, valued_form};
pub use wcnf_error::{WcnfError, WcnfKind};
pub use weighing::{meets, weigh};
