//! Lines that the commands write, with the statuses after them.
#![tactic(auto)]

mod message;
mod shown;
mod status;

pub use message::Message;
pub use status::Status;
