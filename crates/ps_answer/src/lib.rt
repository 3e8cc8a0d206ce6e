//! Answers with their certificates, and the text of a report: what it is, and which line of other
//! bytes is at fault.
#![tactic(auto)]

mod answer;
mod error;
mod item;
mod laws;
mod limits;
mod part;

pub use answer::{
    Answer, Cause, Dual, Model, Multipliers, Parts, QueryAnswer, QueryPart, SideAnswer, Verdict,
    Weighted, Worlds,
};
pub use error::{LineKind, ReportError};
pub use item::{LineItem, Ratio};
pub use laws::{
    due_lines_are_answers, faults_are_single, short_lines_are_texts, texts_determine_answers,
    written_lines_are_lines,
};
pub use limits::{
    MOST_DUAL_STEPS, MOST_ENTRIES, MOST_EVENTS, MOST_MULTIPLIERS, MOST_OPERAND, MOST_PIVOTS,
    MOST_QUERIES, MOST_ROW, MOST_WORLD, limits_have_these_numbers,
};
pub use part::Part;
pub use ps_log::MOST_CONFLICTS;
