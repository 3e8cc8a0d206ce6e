//! How phase one ended.
use ps_answer::{Cause, Dual, Model};

/// How phase one ended.
#[derive(Drop)]
pub enum First {
    /// A distribution that meets the kept sentences and gives the evidence a positive probability.
    Reached(Model),
    /// What shows that there is none.
    Nothing(Dual),
    /// A limit was reached, which the cause tells; nothing is claimed.
    Open(Cause),
}
