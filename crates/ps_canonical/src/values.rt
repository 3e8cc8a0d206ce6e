//! The values of bounds as they are written.
ghost use Rattle.std.specs.Prelude.{◌≡◌, ◌++◌, OnOk, decimal};
ghost use Rattle.ps_text.specs.Canonical.{is_negative};
ghost use Rattle.ps_problem.specs.Scales.{fraction_of};
ghost use Rattle.ps_canonical.specs.Lines.{Adds, bounds_text, value_text};
ghost use Rattle.ps_canonical.specs.Terms.{fraction_text, size_text, signed_text_of, rights_text};
ghost use Rattle.ps_canonical.specs.Terms.{range_between, right_text, IsSmallLinear};

use ps_io::NoMemory;
use ps_problem::{Bound, Linear, Side, Signed, lowest};

// Writes bytes.
pub(crate) fn append(out: &mut Vec<u8>, bytes: &[u8]) -> Result<(), NoMemory>
    ensures { OnOk result (Adds out.old.items out.new.items bytes.now) }
{
    out.extend_from_slice(bytes)?;
    Ok(())
}

// Writes a number in decimal.
fn number(out: &mut Vec<u8>, n: u64) -> Result<(), NoMemory>
    ensures { OnOk result (Adds out.old.items out.new.items (decimal n)) }
{
    let mut digits = itoa::Buffer::new();
    append(out, digits.format(n).as_bytes())
}

// Writes a bound's value: a whole number, or a quotient.
fn numeral(out: &mut Vec<u8>, bound: &Bound) -> Result<(), NoMemory>
    ensures { OnOk result (Adds out.old.items out.new.items (value_text bound.now)) }
{
    fraction(out, u64::from(bound.num), bound.den)
}

// Writes a fraction: a whole number where its denominator is 1, else a quotient.
fn fraction(out: &mut Vec<u8>, num: u64, den: u32) -> Result<(), NoMemory>
    ensures { OnOk result (Adds out.old.items out.new.items (fraction_text num den)) }
{
    number(out, num)?;
    if den == 1 {
        return Ok(());
    }
    append(out, b"/")?;
    number(out, u64::from(den))
}

// Whether a number is below 0.
pub(crate) fn is_negative(number: i64) -> bool
    ensures { result ≡ is_negative number }
{
    number < 0
}

// Writes the size of a fraction that may be below 0.
pub(crate) fn size(out: &mut Vec<u8>, fraction: Signed) -> Result<(), NoMemory>
    ensures { OnOk result (Adds out.old.items out.new.items (size_text (fraction_of fraction))) }
{
    self::fraction(out, fraction.num.unsigned_abs(), fraction.den)
}

// Writes a fraction that may be below 0, with its `-` at it.
fn signed_fraction(out: &mut Vec<u8>, value: Signed) -> Result<(), NoMemory>
    ensures { OnOk result (Adds out.old.items out.new.items (signed_text_of (fraction_of value))) }
{
    if is_negative(value.num) {
        append(out, b"-")?;
    }
    size(out, value)
}

// Writes a sign and a right side behind it.
fn right(out: &mut Vec<u8>, sign: &[u8], value: Signed) -> Result<(), NoMemory>
    ensures { OnOk result (Adds out.old.items out.new.items (right_text sign.now value)) }
{
    append(out, sign)?;
    signed_fraction(out, value)
}

// Writes a sign and a bound's value behind it.
fn value(out: &mut Vec<u8>, sign: &[u8], bound: &Bound) -> Result<(), NoMemory>
    ensures { OnOk result (Adds out.old.items out.new.items (sign.now ++ value_text bound.now)) }
{
    append(out, sign)?;
    numeral(out, bound)
}

// Writes how a sentence bounds its probability.
pub(crate) fn relation(
    out: &mut Vec<u8>,
    first: &Bound,
    second: Option<Bound>,
) -> Result<(), NoMemory>
    ensures { OnOk result (Adds out.old.items out.new.items (bounds_text first.now second)) }
{
    match first.side {
        Side::Exactly => value(out, b" = ", first),
        Side::AtMost => value(out, b" <= ", first),
        Side::AtLeast => match second {
            None => value(out, b" >= ", first),
            Some(most) => {
                value(out, b" in [", first)?;
                value(out, b", ", &most)?;
                append(out, b"]")
            }
        },
    }
}

// Writes that a sum is in a range.
fn range(out: &mut Vec<u8>, least: Signed, most: Signed) -> Result<(), NoMemory>
    ensures { OnOk result (Adds out.old.items out.new.items (range_between least most)) }
{
    right(out, b" in [", least)?;
    right(out, b", ", most)?;
    append(out, b"]")
}

// Writes how a linear sentence bounds its sum.
pub(crate) fn sum_relation(out: &mut Vec<u8>, linear: &Linear) -> Result<(), NoMemory>
    requires { IsSmallLinear linear.now }
    ensures { OnOk result (Adds out.old.items out.new.items (rights_text linear.now)) }
{
    let first = lowest(linear.scale, linear.right);
    match linear.side {
        Side::Exactly => right(out, b" = ", first),
        Side::AtMost => right(out, b" <= ", first),
        Side::AtLeast => match linear.upper {
            None => right(out, b" >= ", first),
            Some(most) => range(out, first, lowest(linear.scale, most)),
        },
    }
}
