//! The text of an answer about weighted clauses: written, and read.
#![tactic(auto)]

mod item;
mod item_reader;
mod laws;
mod line;
mod lines;
mod part;
mod reading;
mod values;
mod writing;

pub use item::MaxItem;
pub use laws::{answers_are_short, texts_are_read_back};
pub use part::MaxPart;
pub use ps_answer::{LineKind, ReportError};
pub use reading::read_max;
pub use writing::write_max;
