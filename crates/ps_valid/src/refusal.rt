//! What is said of an answer: that it is accepted, or why it isn't.
ghost use Rattle.std.specs.Prelude.{◌≡◌};

use ps_claims::{Claim, Reason};
use ps_io::NoMemory;
use thiserror::Error;

/// How much an accepted answer claims.
#[derive(Clone, Copy, Debug, PartialEq, Eq)]
pub struct Accepted {
    /// How many claims it makes: one for a finished verdict, for each impossible query and for each
    /// finished side.
    pub claims: u32,
    /// How much is open and claims nothing: an open verdict, query or side counts once.
    pub unfinished: u32,
}

/// The first claim at fault and the first reason against it.
#[derive(Clone, Copy, Debug, PartialEq)]
pub struct Refusal {
    /// The first claim at fault.
    pub claim: Claim,
    /// The first reason against it.
    pub reason: Reason,
}

/// An answer isn't accepted: it is refused, or there was not enough memory to judge it.
#[derive(Clone, Copy, Debug, PartialEq, Error)]
pub enum CheckError {
    /// The answer hasn't the parts that are due, or a claim isn't valid.
    #[error("the answer is refused")]
    Refused(Refusal),
    /// There was not enough memory.
    #[error("not enough memory")]
    NoMemory,
}

impl From<NoMemory> for CheckError {
    ghost use Rattle.ps_valid.specs.declared.refusal.CheckError.TheVariants as errors;

    ghost from_gives = { λ _ e. e ≡ errors.NoMemory };

    fn from(_: NoMemory) -> CheckError {
        CheckError::NoMemory
    }
}
