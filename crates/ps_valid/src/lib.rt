//! The check of an answer's claims: each is valid, or the first that isn't is named with its first
//! fault.
#![tactic(auto)]

mod bounded;
mod checking;
mod laws;
mod meeting;
mod modelled;
mod quotient;
mod refusal;
mod refuting;
mod signs;
mod steps;
mod truth;
mod weighing;

pub use bounded::check_bound;
pub use checking::check;
pub use laws::{refusals_are_single, report_lines_are_short, reports_are_small};
pub use modelled::{check_model, check_model_over};
pub use ps_claims::{Claim, Reason};
pub use refusal::{Accepted, CheckError, Refusal};
pub use refuting::check_dual;
pub use steps::checker_of;
