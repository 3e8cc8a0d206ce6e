//! Digits of a number.
ghost use Rattle.std.specs.Prelude.{◌≡◌, IsTrue};
ghost use Rattle.ps_text.specs.Tokens.{is_digit as digit_byte};
ghost use Rattle.ps_lex.specs.Counted.{no_digits, with_digit, IsCapped};

use ps_text::{GREATEST_DENOMINATOR, GREATEST_NUMBER, MOST_DECIMALS};

/// The count that is kept of more digits than a number may have behind its point.
pub const MANY_DIGITS: u8 = MOST_DECIMALS + 1;

/// The value that is kept of digits whose value is greater than the one of a number may be, over
/// the greatest denominator.
pub const GREAT_VALUE: u64 = GREATEST_NUMBER as u64 * GREATEST_DENOMINATOR as u64 + 1;

/// What counts of digits: how many there are and their value, `MANY_DIGITS` and `GREAT_VALUE` for
/// more.
#[derive(Clone, Copy, Debug, PartialEq, Eq)]
pub struct Digits {
    /// How many there are, or `MANY_DIGITS` if that is less.
    pub count: u8,
    /// Their value, or `GREAT_VALUE` if that is less.
    pub value: u64,
}

impl Digits {
    /// No digit.
    pub(crate) fn none() -> Digits
        ensures { result ≡ no_digits }
    {
        Digits { count: 0, value: 0 }
    }

    /// The digits with one more.
    pub(crate) fn with(self, digit: u8) -> Digits
        requires digit { IsTrue (digit_byte digit) }
        requires capped { IsCapped self }
        ensures value { result ≡ with_digit self digit }
        ensures capped { IsCapped result }
    {
        Digits {
            count: (self.count + 1).min(MANY_DIGITS),
            value: (10 * self.value + u64::from(digit - b'0')).min(GREAT_VALUE),
        }
    }
}
