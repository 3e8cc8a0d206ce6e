//! A fraction.

ghost use Rattle.std.specs.Prelude.{◌≡◌, ◌<◌, ◌↔◌, IsTrue, pos, ◌<ℤ◌, unsigned_abs};
ghost use Rattle.ps_meaning.specs.Rational.{Rational, IsLowestTerms, fraction, neg, zero_q};
ghost use Rattle.ps_meaning.specs.Wide.{Fits, size_limit};

use crate::checked::signed_quotient;
use crate::divisors::gcd;
use std::marker::Model;

/// A reduced fraction, its numerator and denominator at most 2^127 - 1 in size. Contracts see it as
/// the rational number, so fractions are equal where their numbers are.
#[derive(Clone, Copy, PartialEq, Eq, Debug, Drop)]
pub struct Fraction {
    numerator: i128,
    denominator: u128,
    ghost lowest: { IsLowestTerms numerator denominator },
}

impl Model for Fraction {
    ghost use Rattle.std.specs.Prelude.{◌<◌};
    ghost use Rattle.ps_meaning.specs.Rational.{Rational, IsLowestTerms, coded_rational};
    ghost use Rattle.ps_meaning.specs.Wide.{Fits, size_limit};

    ghost Value = { Rational };

    ghost coded = { coded_rational };

    ghost view = { λ f. record { over = f.numerator; under = f.denominator; lowest = f.lowest } };

    ghost inverse = { λ r. record { numerator = r.over; denominator = r.under; lowest = r.lowest } };

    ghost invariant = { λ f. Fits f.numerator × (f.denominator < size_limit) };
}

impl Fraction {
    /// The fraction of two numbers that are already in lowest terms.
    pub(crate) fn of_lowest(numerator: i128, denominator: u128) -> Fraction
        requires lowest { IsLowestTerms numerator denominator }
        requires over_small { Fits numerator }
        requires under_small { denominator < size_limit }
        ensures over { result.over ≡ numerator }
        ensures under { result.under ≡ denominator }
    {
        Fraction {
            numerator,
            denominator,
        }
    }

    /// `n / d`, reduced.
    pub fn new(n: i128, d: i128) -> Fraction
        requires positive { pos 0 <ℤ d }
        requires size { Fits n }
        ensures value { result ≡ fraction n (unsigned_abs d) }
    {
        let bottom = d.unsigned_abs();
        let g = gcd(n.unsigned_abs(), bottom);
        Fraction::of_lowest(signed_quotient(n, g), bottom / g)
    }

    /// Both numbers are below the limit: a law, no more than two reads.
    pub fn fits(&self)
        ensures over { Fits self.now.over }
        ensures under { self.now.under < size_limit }
    {
        // Read for its clauses: the size of the numerator is below the limit.
        let _over = self.numerator();
        // Read for its clauses: the denominator is below the limit.
        let _under = self.under();
    }

    /// The numerator in lowest terms.
    pub fn numerator(&self) -> i128
        ensures value { result ≡ self.now.over }
        ensures small { Fits result }
    {
        self.numerator
    }

    /// The denominator in lowest terms, as the size that it is.
    pub(crate) fn under(&self) -> u128
        ensures value { result ≡ self.now.under }
        ensures small { result < size_limit }
        ensures positive { 0 < result }
    {
        self.denominator
    }

    /// The denominator in lowest terms.
    pub fn denominator(&self) -> i128
        ensures value { result ≡ pos self.now.under }
        ensures positive { pos 0 <ℤ result }
    {
        self.denominator as i128
    }

    /// Whether the fraction is 0.
    pub fn is_zero(&self) -> bool
        ensures value { IsTrue result ↔ (self.now ≡ zero_q) }
    {
        self.numerator() == 0
    }

    /// Whether the fraction is below 0.
    pub fn is_negative(&self) -> bool
        ensures value { IsTrue result ↔ (self.now.over <ℤ pos 0) }
    {
        self.numerator < 0
    }

    /// The fraction with the other sign.
    pub fn neg(&self) -> Fraction
        ensures value { result ≡ neg self.now }
    {
        Fraction::of_lowest(-self.numerator(), self.under())
    }
}
