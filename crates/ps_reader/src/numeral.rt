//! Numbers of any size, cut off past every limit.
ghost use Rattle.std.specs.Prelude.{◌≡◌, ◌≤◌, ◌<◌, ◌∷◌, ◌+◌, ◌*◌, ℕ, List as Bytes, All};
ghost use Rattle.std.specs.Prelude.{IfSome};
ghost use Rattle.std.specs.Char.{digit_value};
ghost use Rattle.std.specs.Str.Parse.{digits_value};
ghost use Rattle.ps_answer.specs.declared.limits.TheConstants.{MOST_OPERAND};
ghost use Rattle.ps_reader.specs.Numerals.{capped_size, IsSize, IsCountUpTo, IsNumberUpTo};

use crate::line_fault::LineFault;
use ps_answer::MOST_OPERAND;
use ps_log::{is_plain, without_minus};

// One above the greatest limit, that of an operand: what is more counts as this.
const CAP: u128 = MOST_OPERAND + 1;

// The size that a word spells, if it spells one: digits without a leading zero.
fn size(word: &[u8]) -> Option<u128>
    ensures size { IsSize word.now result }
    ensures within { IfSome result (λ n. n ≤ MOST_OPERAND + 1) }
{
    if is_plain(word) {
        Some(value(word))
    } else {
        None
    }
}

fn value(digits: &[u8]) -> u128
    requires { All (λ b. digit_value b < 10) digits.now }
    ensures { result ≡ capped_size (digits_value 10 digits.now) }
{
    let mut value = 0;
    for digit in digits {
        value = one_more_digit(value, *digit - b'0');
    }
    value
}

// Ten times the value and the digit; past every limit it stays there.
fn one_more_digit(value: u128, digit: u8) -> u128
    ensures { result ≡ capped_size (10 * value + digit) }
{
    CAP.min(value.saturating_mul(10).saturating_add(u128::from(digit)))
}

/// A number that is no less than 0, up to a limit.
pub(crate) fn count_up_to(limit: u128, word: &[u8]) -> Result<u128, LineFault>
    requires { limit ≤ MOST_OPERAND }
    ensures { IsCountUpTo limit word.now result }
{
    match size(word) {
        None => Err(LineFault::NotCanonical),
        Some(n) if n <= limit => Ok(n),
        Some(_) => Err(LineFault::TooLarge),
    }
}

/// A number up to a limit in size.
pub(crate) fn number_up_to(limit: u128, word: &[u8]) -> Result<i128, LineFault>
    requires { limit ≤ MOST_OPERAND }
    ensures { IsNumberUpTo limit word.now result }
{
    match without_minus(word) {
        Some(digits) => negative_up_to(limit, digits),
        None => positive_up_to(limit, word),
    }
}

fn positive_up_to(limit: u128, word: &[u8]) -> Result<i128, LineFault>
    requires limit { limit ≤ MOST_OPERAND }
    requires no_minus { (rest : Bytes ℕ) → word.now ≡ 45 ∷ rest → ⊥ }
    ensures { IsNumberUpTo limit word.now result }
{
    Ok(count_up_to(limit, word)? as i128)
}

fn negative_up_to(limit: u128, digits: &[u8]) -> Result<i128, LineFault>
    requires { limit ≤ MOST_OPERAND }
    ensures { IsNumberUpTo limit (45 ∷ digits.now) result }
{
    match count_up_to(limit, digits)? {
        0 => Err(LineFault::NotCanonical),
        n => Ok(-(n as i128)),
    }
}
