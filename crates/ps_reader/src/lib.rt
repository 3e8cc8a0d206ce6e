//! The reader of reports: the answer of a text, line by line, or the first line at fault.
#![tactic(auto)]

mod causes;
mod error;
mod heads;
mod item;
mod kinds;
mod line;
mod line_fault;
mod lines;
mod models;
mod numeral;
mod openings;
mod pairs;
mod places;
mod queries;
mod ratio;
mod report;
mod rows;
mod texts;
mod traces;
mod truths;
mod wide;
mod words;

pub use error::LineError;
pub use kinds::{amount, count, version};
pub use line::read_line;
pub use line_fault::LineFault;
pub use pairs::both;
pub use ratio::fraction_of;
pub use report::read_report;
pub use words::Words;
