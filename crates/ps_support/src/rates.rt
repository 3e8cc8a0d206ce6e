//! How fast a bound moves with a number of a sentence.
ghost use Rattle.std.specs.Prelude.{◌≡◌, ◌≤◌, ◌*◌, ◌≤ℤ◌, pos, unsigned_abs};
ghost use Rattle.ps_meaning.specs.declared.limits.TheConstants.{PRINTED_LIMIT};
ghost use Rattle.ps_problem.specs.declared.limits.TheConstants.{GREATEST_SCALE};
ghost use Rattle.ps_claims.specs.Certificates.{IsMultiplier};
ghost use Rattle.ps_support.specs.Rates.{hundredth_of, hundredth_where, rate_of, size_of};
ghost use Rattle.ps_support.specs.Rates.{towards};

use crate::bound_side::BoundSide;
use ps_frac::Fraction;

/// A multiplier in units of its sentence's number.
pub(crate) fn size_of(multiplier: i128, unit: u32) -> i128
    requires small { IsMultiplier multiplier }
    requires unit { unit ≤ GREATEST_SCALE }
    ensures value { result ≡ size_of multiplier unit }
    ensures small { unsigned_abs result ≤ PRINTED_LIMIT * GREATEST_SCALE }
{
    multiplier * i128::from(unit)
}

// The same, above 0 where the bound rises with that number.
fn towards(side: BoundSide, size: i128) -> i128
    requires { unsigned_abs size ≤ PRINTED_LIMIT * GREATEST_SCALE }
    ensures value { result ≡ towards side size }
    ensures small { unsigned_abs result ≤ PRINTED_LIMIT * GREATEST_SCALE }
{
    match side {
        BoundSide::Lower => size,
        BoundSide::Upper => -size,
    }
}

/// How fast the bound of a dual with this top moves with that number.
pub(crate) fn rate_of(side: BoundSide, size: i128, top: i128) -> Fraction
    requires size { unsigned_abs size ≤ PRINTED_LIMIT * GREATEST_SCALE }
    requires top { pos 1 ≤ℤ top }
    ensures { result ≡ rate_of side size top }
{
    Fraction::new(towards(side, size), top)
}

// How far it moves where that number rises by a hundredth.
fn hundredth_of(side: BoundSide, size: i128, top: i128) -> Fraction
    requires size { unsigned_abs size ≤ PRINTED_LIMIT * GREATEST_SCALE }
    requires top { pos 1 ≤ℤ top }
    requires small { IsMultiplier top }
    ensures { result ≡ hundredth_of side size top }
{
    Fraction::new(towards(side, size), top * 100)
}

/// The same where that is wanted.
pub(crate) fn hundredth_where(
    is_wanted: bool,
    side: BoundSide,
    size: i128,
    top: i128,
) -> Option<Fraction>
    requires size { unsigned_abs size ≤ PRINTED_LIMIT * GREATEST_SCALE }
    requires top { pos 1 ≤ℤ top }
    requires small { IsMultiplier top }
    ensures { result ≡ hundredth_where is_wanted side size top }
{
    if is_wanted {
        return Some(hundredth_of(side, size, top));
    }
    None
}
