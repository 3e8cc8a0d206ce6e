//! Why a token isn't taken.
ghost use Rattle.std.specs.Prelude.{◌≡◌};
ghost use Rattle.ps_read.specs.declared.parse_error.ParseError.TheVariants as errors;

use ps_io::NoMemory;
use ps_text::ReadKind;
use thiserror::Error;

/// Why a token isn't taken.
#[derive(Clone, Copy, Debug, PartialEq, Eq, Error)]
pub enum ParseError {
    /// The token is refused.
    #[error("the token is refused")]
    Refused(ReadKind),
    /// There was not enough memory.
    #[error("not enough memory")]
    NoMemory,
}

impl From<NoMemory> for ParseError {
    ghost from_gives = { λ _ e. e ≡ errors.NoMemory };

    fn from(_: NoMemory) -> ParseError {
        ParseError::NoMemory
    }
}
