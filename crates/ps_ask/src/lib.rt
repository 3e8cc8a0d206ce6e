//! The answer to an input, as it is shown to people.
#![tactic(auto)]

mod answered;
mod answering;
mod clash;
mod company;
mod conditions;
mod cores;
mod details;
mod fronts;
mod judged;
mod late;
mod laws;
mod lean;
mod notes;
mod pieces;
mod range;
mod reached;
mod reply;
mod rounds;
mod settings;
mod shown;
mod sinks;
mod sought;
mod status;
mod unused;
mod values;
mod weights;
mod writing;

pub use answering::{MOST_PROBLEM, ask};
pub use company::Company;
pub use laws::{bounds_have_decimals, reached_values_bound};
pub use ps_claims::ClaimKind;
pub use ps_guess::{Progress, Watch, Work};
pub use ps_hints::{KINDS, Wanted, WarningKind};
pub use settings::{Settings, Style};
pub use sinks::Sinks;
pub use sought::Sought;
pub use status::Status;
