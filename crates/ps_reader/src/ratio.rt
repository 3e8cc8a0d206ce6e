//! Words that say a fraction.
ghost use Rattle.std.specs.Prelude.{◌≡◌, Ok, ◌≤◌, ◌<◌, ◌↔◌, ◌^◌, IsTrue, unsigned_abs};
ghost use Rattle.std.specs.Int.{IsGcd};
ghost use Rattle.ps_answer.specs.declared.limits.TheConstants.{MOST_OPERAND};
ghost use Rattle.ps_meaning.specs.declared.limits.TheConstants.{PRINTED_LIMIT};
ghost use Rattle.ps_reader.specs.Ratios.{IsRatioUpTo, IsValueUpTo, IsUnder};
ghost use Rattle.ps_reader.specs.Ratios.{IsLowest, IsLowestOf, AreParts};
ghost use Rattle.ps_meaning.specs.Rational.{fraction};

use crate::kinds::amount;
use crate::line_fault::LineFault;
use crate::numeral::{count_up_to, number_up_to};
use crate::pairs::both;
use ps_answer::{MOST_OPERAND, Ratio};
use ps_frac::Fraction;
use ps_log::split_once;
use ps_meaning::PRINTED_LIMIT;

/// The value of a side: no less than 0, with numbers up to 2^90.
pub(crate) fn value(word: &[u8]) -> Result<Ratio, LineFault>
    ensures { IsValueUpTo PRINTED_LIMIT word.now result }
{
    match split_once(word, b'/') {
        Some((over, under)) => lowest(amount(over), positive(PRINTED_LIMIT, under)),
        None => Err(LineFault::NotCanonical),
    }
}

/// An operand of the solver, with numbers below 2^127.
pub(crate) fn operand(word: &[u8]) -> Result<Ratio, LineFault>
    ensures { IsRatioUpTo MOST_OPERAND word.now result }
{
    match split_once(word, b'/') {
        Some((over, under)) => {
            lowest(
                number_up_to(MOST_OPERAND, over),
                positive(MOST_OPERAND, under),
            )
        }
        None => Err(LineFault::NotCanonical),
    }
}

// A denominator: at least 1.
fn positive(limit: u128, word: &[u8]) -> Result<u128, LineFault>
    requires { limit ≤ MOST_OPERAND }
    ensures { IsUnder limit word.now result }
{
    match count_up_to(limit, word)? {
        0 => Err(LineFault::NotCanonical),
        n => Ok(n),
    }
}

// The fraction of two numbers, where it is in lowest terms.
fn lowest(over: Result<i128, LineFault>, under: Result<u128, LineFault>) -> Result<Ratio, LineFault>
    requires { AreParts over under }
    ensures { IsLowest over under result }
{
    let (over, under) = both(over, under)?;
    lowest_of(&over, &under)
}

fn lowest_of(over: &i128, under: &u128) -> Result<Ratio, LineFault>
    requires over { unsigned_abs over.now < 2 ^ 127 }
    requires under { under.now < 2 ^ 127 }
    requires positive { 1 ≤ under.now }
    ensures { IsLowestOf (Ok (over.now, under.now)) result }
{
    if is_lowest(over, under) {
        Ok(Ratio {
            over: *over,
            under: *under,
        })
    } else {
        Err(LineFault::NotCanonical)
    }
}

fn is_lowest(over: &i128, under: &u128) -> bool
    requires over { unsigned_abs over.now < 2 ^ 127 }
    requires under { under.now < 2 ^ 127 }
    requires positive { 1 ≤ under.now }
    ensures { IsTrue result ↔ IsGcd (unsigned_abs over.now) under.now 1 }
{
    let fraction = fraction_of(over, under);
    has_numbers(&fraction, over, under)
}

/// The fraction of two numbers.
pub fn fraction_of(over: &i128, under: &u128) -> Fraction
    requires over { unsigned_abs over.now < 2 ^ 127 }
    requires under { under.now < 2 ^ 127 }
    requires positive { 1 ≤ under.now }
    ensures { result ≡ fraction over.now under.now }
{
    Fraction::new(*over, *under as i128)
}

fn has_numbers(fraction: &Fraction, over: &i128, under: &u128) -> bool
    ensures { IsTrue result ↔ ((fraction.now.over ≡ over.now) × (fraction.now.under ≡ under.now)) }
{
    if fraction.numerator() != *over {
        return false;
    }
    fraction.denominator().unsigned_abs() == *under
}
