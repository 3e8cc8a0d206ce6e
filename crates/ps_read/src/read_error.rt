//! Why no problem is read, and where.
ghost use Rattle.std.specs.Prelude.{◌≡◌};
ghost use Rattle.ps_read.specs.declared.read_error.ReadError.TheVariants as errors;

use ps_io::NoMemory;
use ps_lex::Position;
use ps_text::ReadKind;
use thiserror::Error;

/// Why no problem is read.
#[derive(Clone, Copy, Debug, PartialEq, Eq, Error)]
pub enum ReadError {
    /// The first refusal: its kind, and the line and the column, from 1 on, of the token, byte or
    /// end at which it comes. A column counts bytes.
    #[error("unreadable at {line}:{column}")]
    At {
        kind: ReadKind,
        line: u32,
        column: u32,
    },
    /// There was not enough memory.
    #[error("not enough memory")]
    NoMemory,
}

impl ReadError {
    // A refusal at a position.
    pub(crate) fn at(kind: ReadKind, place: Position) -> ReadError
        ensures { result ≡ errors.At kind place.line place.column }
    {
        ReadError::At {
            kind,
            line: place.line,
            column: place.column,
        }
    }
}

impl From<NoMemory> for ReadError {
    ghost from_gives = { λ _ e. e ≡ errors.NoMemory };

    fn from(_: NoMemory) -> ReadError {
        ReadError::NoMemory
    }
}
