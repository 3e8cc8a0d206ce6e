//! Numbers and literals.
ghost use Rattle.std.specs.Prelude.{◌≡◌, ◌≤◌, ◌*◌, ◌+◌, min};
ghost use Rattle.ps_wcnf.specs.Counted.{IsCount, IsOfSize, IsSigned, IsLiteralOf, most_count};

use ps_pb::Lit;

// What is more than the greatest weight counts as one more than it.
const CAP: u128 = (1 << 62) + 1;

// Ten times the value and the digit; past every limit it stays there.
fn one_more_digit(value: u128, digit: u8) -> u128
    ensures { result ≡ min most_count (10 * value + digit) }
{
    CAP.min(value.saturating_mul(10).saturating_add(u128::from(digit)))
}

/// The number that digits spell, if it is at least 1; past every limit it is cut off.
pub(crate) fn count(word: &[u8]) -> Option<u128>
    ensures { IsCount word.now result }
{
    let mut value = 0;
    for byte in word {
        if !byte.is_ascii_digit() {
            return None;
        }
        value = one_more_digit(value, *byte - b'0');
    }
    if value == 0 { None } else { Some(value) }
}

/// What a word says as a literal.
#[derive(Clone, Copy)]
pub(crate) enum Spelled {
    /// It is no literal.
    Nothing,
    /// It is a literal of a variable past the last.
    Large,
    /// It is this literal.
    Literal(Lit),
}

// The literal of a size and a sign.
fn literal_of(size: u128, negative: bool) -> Spelled
    requires { 1 ≤ size }
    ensures { IsOfSize size negative result }
{
    if size <= 1024 {
        let number = size as i32;
        match Lit::new(if negative { -number } else { number }) {
            Some(lit) => Spelled::Literal(lit),
            None => Spelled::Nothing,
        }
    } else {
        Spelled::Large
    }
}

fn literal_of_digits(digits: &[u8], negative: bool) -> Spelled
    ensures { IsSigned digits.now negative result }
{
    match count(digits) {
        Some(size) => literal_of(size, negative),
        None => Spelled::Nothing,
    }
}

/// The literal that a word spells, if it does.
pub(crate) fn literal(word: &[u8]) -> Spelled
    ensures { IsLiteralOf word.now result }
{
    match word {
        [b'-', digits @ ..] => literal_of_digits(digits, true),
        _ => literal_of_digits(word, false),
    }
}
