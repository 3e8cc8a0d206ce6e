//! The check of an input that comes piece by piece: a problem's text, and behind it the report of
//! an answer. Of its bytes no more is kept than a line; of the report's steps their clauses alone,
//! and of its traces and causes nothing.
#![tactic(auto)]

mod against;
mod checked;
mod dual_number;
mod due;
mod end;
mod intake;
mod judge;
mod laws;
mod progress;
mod reading;
mod report;
mod small_model;
mod stage;
mod state;
mod stream;
mod subject;

pub use checked::Checked;
pub use end::StreamEnd;
pub use intake::MOST_SEARCHED;
pub use laws::{later_steps_decide_claims, lines_are_judged_as_answers};
pub use reading::check_stream;
pub use stream::StreamCheck;
