//! A decimal.
ghost use Rattle.std.specs.Prelude.{◌≡◌, ◌^◌, ◌<◌, ◌≤◌, ◌↔◌, IsTrue, unsigned_abs};
ghost use Rattle.ps_frac.specs.Decimals.{HasDecimals, IsRoundedDown, IsRoundedUp};
ghost use Rattle.ps_frac.specs.Decimals.{has_decimals, rounded_down, rounded_up};
ghost use Rattle.ps_frac.specs.declared.limits.TheConstants.{MOST_DIGITS};

use crate::division::long_division;
use crate::fraction::Fraction;
use ps_meaning::PRINTED_LIMIT;
use std::marker::Model;

/// A whole multiple of a power of ten, from 0 to 1. It has from 1 to `MOST_DIGITS` digits behind
/// the point.
#[derive(Clone, Copy, PartialEq, Eq, Debug, Drop)]
pub struct Decimal {
    units: u64,
    digits: u32,
}

impl Model for Decimal {
    ghost use Rattle.std.specs.Prelude.{◌<◌, ◌≤◌, ◌^◌};
    ghost use Rattle.ps_frac.specs.Decimals.{Decimal as Multiple, coded_decimal};
    ghost use Rattle.ps_frac.specs.declared.limits.TheConstants.{MOST_DIGITS};

    ghost Value = { Multiple };

    ghost coded = { coded_decimal };

    ghost view = { λ d. record { units = d.units; digits = d.digits } };

    ghost inverse = { λ d. record { units = d.units; digits = d.digits } };

    ghost invariant = { λ d. (0 < d.digits) × (d.digits ≤ MOST_DIGITS)
        × (d.units ≤ 10 ^ d.digits) };
}

// The size of a fraction's numerator, and its denominator.
fn terms(fraction: &Fraction) -> (u128, u128)
    ensures over { result.0 ≡ unsigned_abs fraction.now.over }
    ensures under { result.1 ≡ fraction.now.under }
    ensures positive { 0 < result.1 }
{
    (
        fraction.numerator().unsigned_abs(),
        fraction.denominator().unsigned_abs(),
    )
}

// Whether a fraction has decimals.
fn is_in_range(fraction: &Fraction) -> bool
    ensures { IsTrue result ↔ HasDecimals fraction.now }
{
    let (over, under) = terms(fraction);
    !fraction.is_negative() && over <= under && under <= PRINTED_LIMIT
}

/// Whether a fraction has decimals: it is from 0 to 1, and its denominator is at most
/// `PRINTED_LIMIT`.
pub fn has_decimals(fraction: &Fraction) -> bool
    ensures value { result ≡ has_decimals fraction.now }
    ensures in_range { IsTrue result ↔ HasDecimals fraction.now }
{
    is_in_range(fraction)
}

impl Decimal {
    // So many units of the last place.
    fn of_units(units: u128, digits: u32) -> Decimal
        requires some { 0 < digits }
        requires few { digits ≤ MOST_DIGITS }
        requires most { units ≤ 10 ^ digits }
        ensures units { result.units ≡ units }
        ensures digits { result.digits ≡ digits }
    {
        Decimal {
            units: units as u64,
            digits,
        }
    }

    /// The greatest decimal of so many digits that is at most the fraction (by long division).
    pub fn down(fraction: &Fraction, digits: u32) -> Decimal
        requires fraction { HasDecimals fraction.now }
        requires some { 0 < digits }
        requires few { digits ≤ MOST_DIGITS }
        ensures value { result ≡ rounded_down fraction.now digits }
        ensures rounded { IsRoundedDown fraction.now result }
    {
        let (over, under) = terms(fraction);
        let (units, _rest) = long_division(over, under, digits);
        Decimal::of_units(units, digits)
    }

    /// The least decimal of so many digits that is at least the fraction (by long division).
    pub fn up(fraction: &Fraction, digits: u32) -> Decimal
        requires fraction { HasDecimals fraction.now }
        requires some { 0 < digits }
        requires few { digits ≤ MOST_DIGITS }
        ensures value { result ≡ rounded_up fraction.now digits }
        ensures rounded { IsRoundedUp fraction.now result }
    {
        let (over, under) = terms(fraction);
        let (units, rest) = long_division(over, under, digits);
        if rest == 0 {
            return Decimal::of_units(units, digits);
        }
        Decimal::of_units(units + 1, digits)
    }

    /// The decimal by its parts: a law, no more than a read.
    pub(crate) fn parts(&self) -> (u64, u32)
        ensures units { result.0 ≡ self.now.units }
        ensures digits { result.1 ≡ self.now.digits }
        ensures some { 0 < result.1 }
        ensures few { result.1 ≤ MOST_DIGITS }
        ensures most { result.0 ≤ 10 ^ result.1 }
    {
        (self.units, self.digits)
    }
}
