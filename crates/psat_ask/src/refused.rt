//! Why nothing is asked for.
ghost use Rattle.std.specs.Prelude.{◌≡◌};

use ps_ask::Status;
use ps_io::NoMemory;
use std::alloc::{AllocError, AllocFailed};
use std::io::ErrorKind;
use thiserror::Error;

/// The number with which the program exits where its words ask for nothing.
pub const WRONG_WORDS: u8 = 2;

/// The number with which it exits where the system doesn't hand out its words, as `psat` does.
const NO_WORDS: u8 = 10;

/// Why nothing is asked for.
#[derive(Debug, Drop, Error)]
pub enum Refused {
    /// What is wrong with the words.
    #[error("{0}")]
    Wrong(&'static str),
    /// They have an option that isn't known, as names are shown.
    #[error("the option {0} is unknown")]
    Unknown(String),
    /// They have one that isn't known, and is close to one that is.
    #[error("the option {0} is unknown; is {1} meant?")]
    Misspelt(String, &'static str),
    /// They have a kind of warnings that isn't known, as names are shown, and close to one that is.
    #[error("the kind of warnings {0} is unknown; is {1} meant?")]
    MisspeltKind(String, &'static str),
    /// The system doesn't hand them out, since one of them isn't UTF-8.
    #[error("an argument isn't UTF-8")]
    NotText,
    /// The system doesn't hand them out.
    #[error("the arguments can't be had")]
    NoWords,
    /// There was not enough memory.
    #[error("not enough memory")]
    NoMemory,
}

impl Refused {
    ghost use Rattle.psat_ask.specs.Refusals.{refused_by, refused_number};

    /// Why the system doesn't hand out the words, by the kind of its error.
    pub fn by_system(kind: ErrorKind) -> Refused
        ensures { result ≡ refused_by kind }
    {
        match kind {
            ErrorKind::InvalidData => Refused::NotText,
            ErrorKind::OutOfMemory => Refused::NoMemory,
            _ => Refused::NoWords,
        }
    }

    /// The number with which the program exits.
    pub fn status(&self) -> u8
        ensures { result ≡ refused_number self.now }
    {
        match self {
            Refused::Wrong(_) | Refused::Unknown(_) => WRONG_WORDS,
            Refused::Misspelt(..) | Refused::MisspeltKind(..) => WRONG_WORDS,
            Refused::NotText | Refused::NoWords => NO_WORDS,
            Refused::NoMemory => Status::NoMemory.number(),
        }
    }
}

impl From<AllocError> for Refused {
    fn from(_: AllocError) -> Refused {
        Refused::NoMemory
    }
}

impl From<NoMemory> for Refused {
    fn from(_: NoMemory) -> Refused {
        Refused::NoMemory
    }
}

impl<T: Drop> From<AllocFailed<T>> for Refused {
    fn from(_: AllocFailed<T>) -> Refused {
        Refused::NoMemory
    }
}
