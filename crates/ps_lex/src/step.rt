//! What one more byte does.
use crate::mode::Mode;
use crate::{Position, Token};

/// The mode behind a byte, where the token began that isn't whole, and the token that ended before
/// the byte.
#[derive(Drop)]
pub struct Step {
    /// What the byte stands in.
    pub mode: Mode,
    /// Where the token began that isn't whole.
    pub began: Position,
    /// The token that ended before the byte, if one did.
    pub ended: Option<Token>,
}
