//! The writer of reports: the text of an answer, line by line.
#![tactic(auto)]

mod causes;
mod ends;
mod entries;
mod heads;
mod open;
mod parts;
mod place;
mod queries;
mod report;
mod sides;
mod words;

pub use causes::{write_cause, write_verdict};
pub use ends::{
    write_bounds, write_consistent, write_end, write_impossible, write_inconsistent,
    write_report_head,
};
pub use entries::{write_entry, write_event, write_goal_line, write_rows, write_step_line};
pub use heads::{write_dual_head, write_model_head, write_query, write_trace_head};
pub use open::{
    write_bound, write_open_conflicts, write_open_pivots, write_open_side, write_open_wide,
};
pub use parts::{write_dual, write_model, write_trace};
pub use queries::{write_parts, write_query_answer};
pub use report::write_report;
pub use sides::write_side;
pub use words::add_world;
