//! Tokens as they are taken.
use crate::{Digits, Word};
use ps_text::Symbol;

/// A number as it is spelled: digits, digits `/` digits, or digits `.` digits. Of the digits is
/// kept what counts.
#[derive(Clone, Copy, Debug, PartialEq, Eq)]
pub enum Numeral {
    /// Digits alone.
    Whole(Digits),
    /// The digits before the `/` and those behind it.
    Quotient { over: Digits, under: Digits },
    /// All digits together, and how many of them stand behind the point, `MANY_DIGITS` for more.
    Decimal { all: Digits, decimals: u8 },
}

/// A token.
#[derive(Debug, Drop)]
pub enum Token {
    /// A letter, with the letters, digits and `_` behind it.
    Word(Word),
    /// A number.
    Number(Numeral),
    /// A symbol.
    Sign(Symbol),
}
