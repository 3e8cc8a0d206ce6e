//! Both bounds of a query, for people: as fractions and as decimals, the shorter form first.
ghost use Rattle.std.specs.Prelude.{◌≡◌, ◌<◌, ◌≤◌};
ghost use Rattle.ps_frac.specs.declared.limits.TheConstants.{MOST_DIGITS};
ghost use Rattle.ps_spoken.specs.Between.{between_text, decimal_pair, decimals_first};
ghost use Rattle.ps_spoken.specs.Between.{fraction_pair, least_text, long_least, long_most};
ghost use Rattle.ps_spoken.specs.Between.{long_value, long_values, most_text, one_value_text};
ghost use Rattle.ps_spoken.specs.Between.{says_nothing, short_least, short_most, short_value};
ghost use Rattle.ps_spoken.specs.Between.{short_values, two_values_text};
ghost use Rattle.ps_spoken.specs.Numbers.{Puts, Says};

use crate::digits::shown_digits;
use crate::numbers::{append, fraction, high, is_short, low};
use ps_frac::{Fraction, has_decimals};
use ps_io::NoMemory;
use std::cmp::Ordering;

// Whether bounds say no more than that a probability is from 0 to 1.
fn say_nothing(lower: &Fraction, upper: &Fraction) -> bool
    ensures { result ≡ says_nothing lower.now upper.now }
{
    lower.numerator() == 0 && upper.numerator() == 1 && upper.denominator() == 1
}

// Whether decimals stand before fractions: both bounds have them, and one of the fractions is long.
fn are_decimals_first(lower: &Fraction, upper: &Fraction) -> bool
    ensures { result ≡ decimals_first lower.now upper.now }
{
    has_decimals(lower) && has_decimals(upper) && !(is_short(lower) && is_short(upper))
}

// Writes two bounds as fractions.
fn fractions(
    out: &mut Vec<u8>,
    lower: &Fraction,
    between: &[u8],
    upper: &Fraction,
) -> Result<(), NoMemory>
    ensures { Says result out.old.items out.new.items
        (fraction_pair between.now lower.now upper.now) }
{
    fraction(out, lower)?;
    append(out, between)?;
    fraction(out, upper)
}

// Writes two bounds as decimals, the lower one rounded down and the upper one up.
fn decimals(
    out: &mut Vec<u8>,
    lower: &Fraction,
    between: &[u8],
    upper: &Fraction,
    digits: u32,
) -> Result<(), NoMemory>
    requires some { 0 < digits }
    requires few { digits ≤ MOST_DIGITS }
    ensures { Puts result out.old out.new
        (decimal_pair digits between.now lower.now upper.now) }
{
    low(out, lower, digits)?;
    append(out, between)?;
    high(out, upper, digits)
}

// Writes the one value that both bounds are, with its decimals behind it.
fn write_short_value(
    out: &mut Vec<u8>,
    lower: &Fraction,
    upper: &Fraction,
    digits: u32,
) -> Result<(), NoMemory>
    requires some { 0 < digits }
    requires few { digits ≤ MOST_DIGITS }
    ensures { Says result out.old.items out.new.items (short_value digits lower.now upper.now) }
{
    append(out, b"  one value: ")?;
    fraction(out, lower)?;
    append(out, b" (")?;
    decimals(out, lower, b" to ", upper, digits)?;
    append(out, b")\n")
}

// Writes the one value that both bounds are, with its decimals before it.
fn write_long_value(
    out: &mut Vec<u8>,
    lower: &Fraction,
    upper: &Fraction,
    digits: u32,
) -> Result<(), NoMemory>
    requires some { 0 < digits }
    requires few { digits ≤ MOST_DIGITS }
    ensures { Says result out.old.items out.new.items (long_value digits lower.now upper.now) }
{
    append(out, b"  one value: ")?;
    decimals(out, lower, b" to ", upper, digits)?;
    append(out, b" (")?;
    fraction(out, lower)?;
    append(out, b")\n")
}

// Writes the one value that both bounds are.
fn write_one_value(
    out: &mut Vec<u8>,
    lower: &Fraction,
    upper: &Fraction,
    digits: u32,
) -> Result<(), NoMemory>
    requires some { 0 < digits }
    requires few { digits ≤ MOST_DIGITS }
    ensures { Says result out.old.items out.new.items (one_value_text digits lower.now upper.now) }
{
    if are_decimals_first(lower, upper) {
        return write_long_value(out, lower, upper, digits);
    }
    write_short_value(out, lower, upper, digits)
}

// Writes two bounds that differ, with their decimals behind them.
fn write_short_values(
    out: &mut Vec<u8>,
    lower: &Fraction,
    upper: &Fraction,
    digits: u32,
) -> Result<(), NoMemory>
    requires some { 0 < digits }
    requires few { digits ≤ MOST_DIGITS }
    ensures { Says result out.old.items out.new.items (short_values digits lower.now upper.now) }
{
    append(out, b"  between ")?;
    fractions(out, lower, b" and ", upper)?;
    append(out, b" (")?;
    decimals(out, lower, b" to ", upper, digits)?;
    append(out, b")\n")
}

// Writes two bounds that differ, with their decimals before them.
fn write_long_values(
    out: &mut Vec<u8>,
    lower: &Fraction,
    upper: &Fraction,
    digits: u32,
) -> Result<(), NoMemory>
    requires some { 0 < digits }
    requires few { digits ≤ MOST_DIGITS }
    ensures { Says result out.old.items out.new.items (long_values digits lower.now upper.now) }
{
    append(out, b"  between ")?;
    decimals(out, lower, b" and ", upper, digits)?;
    append(out, b" (")?;
    fractions(out, lower, b" to ", upper)?;
    append(out, b")\n")
}

// Writes two bounds that differ.
fn write_two_values(
    out: &mut Vec<u8>,
    lower: &Fraction,
    upper: &Fraction,
    digits: u32,
) -> Result<(), NoMemory>
    requires some { 0 < digits }
    requires few { digits ≤ MOST_DIGITS }
    ensures { Says result out.old.items out.new.items (two_values_text digits lower.now upper.now) }
{
    if are_decimals_first(lower, upper) {
        return write_long_values(out, lower, upper, digits);
    }
    write_short_values(out, lower, upper, digits)
}

/// Writes both bounds, or the one value that they are, or that nothing follows.
pub(crate) fn write_between(
    out: &mut Vec<u8>,
    lower: &Fraction,
    upper: &Fraction,
    digits: u32,
) -> Result<(), NoMemory>
    requires some { 0 < digits }
    requires few { digits ≤ MOST_DIGITS }
    ensures { Says result out.old.items out.new.items (between_text digits lower.now upper.now) }
{
    if say_nothing(lower, upper) {
        return append(out, b"  nothing follows: anything from 0 to 1\n");
    }
    let shown = shown_digits(digits, lower, upper);
    match lower.cmp(upper) {
        Ordering::Equal => write_one_value(out, lower, upper, shown),
        Ordering::Less | Ordering::Greater => write_two_values(out, lower, upper, shown),
    }
}

// Writes a lower bound alone, with its decimal behind it.
fn write_short_least(out: &mut Vec<u8>, value: &Fraction, digits: u32) -> Result<(), NoMemory>
    requires some { 0 < digits }
    requires few { digits ≤ MOST_DIGITS }
    ensures { Says result out.old.items out.new.items (short_least digits value.now) }
{
    append(out, b"  at least ")?;
    fraction(out, value)?;
    append(out, b" (")?;
    low(out, value, digits)?;
    append(out, b")\n")
}

// Writes a lower bound alone, with its decimal before it.
fn write_long_least(out: &mut Vec<u8>, value: &Fraction, digits: u32) -> Result<(), NoMemory>
    requires some { 0 < digits }
    requires few { digits ≤ MOST_DIGITS }
    ensures { Says result out.old.items out.new.items (long_least digits value.now) }
{
    append(out, b"  at least ")?;
    low(out, value, digits)?;
    append(out, b" (")?;
    fraction(out, value)?;
    append(out, b")\n")
}

/// Writes a lower bound alone.
pub(crate) fn write_least(out: &mut Vec<u8>, value: &Fraction, digits: u32) -> Result<(), NoMemory>
    requires some { 0 < digits }
    requires few { digits ≤ MOST_DIGITS }
    ensures { Says result out.old.items out.new.items (least_text digits value.now) }
{
    let shown = shown_digits(digits, value, value);
    if are_decimals_first(value, value) {
        return write_long_least(out, value, shown);
    }
    write_short_least(out, value, shown)
}

// Writes an upper bound alone, with its decimal behind it.
fn write_short_most(out: &mut Vec<u8>, value: &Fraction, digits: u32) -> Result<(), NoMemory>
    requires some { 0 < digits }
    requires few { digits ≤ MOST_DIGITS }
    ensures { Says result out.old.items out.new.items (short_most digits value.now) }
{
    append(out, b"  at most ")?;
    fraction(out, value)?;
    append(out, b" (")?;
    high(out, value, digits)?;
    append(out, b")\n")
}

// Writes an upper bound alone, with its decimal before it.
fn write_long_most(out: &mut Vec<u8>, value: &Fraction, digits: u32) -> Result<(), NoMemory>
    requires some { 0 < digits }
    requires few { digits ≤ MOST_DIGITS }
    ensures { Says result out.old.items out.new.items (long_most digits value.now) }
{
    append(out, b"  at most ")?;
    high(out, value, digits)?;
    append(out, b" (")?;
    fraction(out, value)?;
    append(out, b")\n")
}

/// Writes an upper bound alone.
pub(crate) fn write_most(out: &mut Vec<u8>, value: &Fraction, digits: u32) -> Result<(), NoMemory>
    requires some { 0 < digits }
    requires few { digits ≤ MOST_DIGITS }
    ensures { Says result out.old.items out.new.items (most_text digits value.now) }
{
    let shown = shown_digits(digits, value, value);
    if are_decimals_first(value, value) {
        return write_long_most(out, value, shown);
    }
    write_short_most(out, value, shown)
}
