//! Numbers as they are written for people.
ghost use Rattle.std.specs.Prelude.{◌≡◌, ◌<◌, ◌≤◌, OnOk};
ghost use Rattle.std.specs.Fmt.{signed_decimal};
ghost use Rattle.ps_canonical.specs.Lines.{Adds};
ghost use Rattle.ps_frac.specs.declared.limits.TheConstants.{MOST_DIGITS};
ghost use Rattle.ps_spoken.specs.Numbers.{fraction_text, is_short, low_text, high_text};

use ps_frac::{Decimal, Fraction, has_decimals};
use ps_io::NoMemory;

/// A fraction whose denominator is greater is long: its decimals say more than its numbers.
pub const LONG_DENOMINATOR: i128 = 1_000_000;

/// Whether a fraction is short.
pub(crate) fn is_short(value: &Fraction) -> bool
    ensures { result ≡ is_short value.now }
{
    value.denominator() <= LONG_DENOMINATOR
}

/// Writes bytes.
pub(crate) fn append(out: &mut Vec<u8>, bytes: &[u8]) -> Result<(), NoMemory>
    ensures { OnOk result (Adds out.old.items out.new.items bytes.now) }
{
    out.extend_from_slice(bytes)?;
    Ok(())
}

/// Writes a whole number.
pub fn number(out: &mut Vec<u8>, n: i128) -> Result<(), NoMemory>
    ensures { OnOk result (Adds out.old.items out.new.items (signed_decimal n)) }
{
    let mut digits = itoa::Buffer::new();
    append(out, digits.format(n).as_bytes())
}

/// Writes a fraction: a whole number, or a quotient in lowest terms.
pub(crate) fn fraction(out: &mut Vec<u8>, value: &Fraction) -> Result<(), NoMemory>
    ensures { OnOk result (Adds out.old.items out.new.items (fraction_text value.now)) }
{
    number(out, value.numerator())?;
    let under = value.denominator();
    if under == 1 {
        return Ok(());
    }
    append(out, b"/")?;
    number(out, under)
}

/// Writes a fraction as a decimal, rounded down.
pub(crate) fn low(out: &mut Vec<u8>, value: &Fraction, digits: u32) -> Result<(), NoMemory>
    requires some { 0 < digits }
    requires few { digits ≤ MOST_DIGITS }
    ensures { OnOk result (Adds out.old.items out.new.items (low_text digits value.now)) }
{
    if !has_decimals(value) {
        return append(out, b"?");
    }
    Decimal::down(value, digits).write(out)
}

/// Writes a fraction as a decimal, rounded up.
pub(crate) fn high(out: &mut Vec<u8>, value: &Fraction, digits: u32) -> Result<(), NoMemory>
    requires some { 0 < digits }
    requires few { digits ≤ MOST_DIGITS }
    ensures { OnOk result (Adds out.old.items out.new.items (high_text digits value.now)) }
{
    if !has_decimals(value) {
        return append(out, b"?");
    }
    Decimal::up(value, digits).write(out)
}
