//! Sums and differences of fractions.

ghost use Rattle.std.specs.Prelude.{◌≡◌, ◌<◌, ◌↔◌, pos, ◌*ℤ◌, IsErr, IfOk, IfErr};
ghost use Rattle.ps_meaning.specs.Gcd.{gcd as gcd_of};
ghost use Rattle.ps_meaning.specs.Rational.{add, sub, neg};
ghost use Rattle.ps_meaning.specs.Wide.{Fits, size_limit, sum_over, SumIsWide};
ghost use Rattle.ps_frac.specs.Fitting.{IfFits, IfSumOverFits, IfSumUnderFits};
ghost use Rattle.ps_frac.specs.Refusals.{Refuses};

use crate::checked::{signed_product, signed_quotient, signed_sum, size_product, size_quotient};
use crate::divisors::gcd;
use crate::fraction::Fraction;
use crate::wide::{Op, Wide};

impl Fraction {
    /// The numerator over a denominator that is `factor` times as large.
    fn scaled_numerator(&self, factor: u128) -> Option<i128>
        requires small { factor < size_limit }
        ensures value { IfFits (self.now.over *ℤ pos factor) result }
    {
        signed_product(self.numerator(), factor as i128)
    }

    /// The numerator of the sum over the least common denominator; `g` is what the denominators
    /// have in common.
    fn sum_over(&self, other: &Fraction, g: u128) -> Option<i128>
        requires g_is { g ≡ gcd_of self.now.under other.now.under }
        requires g_positive { 0 < g }
        ensures value { IfSumOverFits self.now other.now result }
    {
        match (
            self.scaled_numerator(size_quotient(other.under(), g)),
            other.scaled_numerator(size_quotient(self.under(), g)),
        ) {
            (Some(left), Some(right)) => signed_sum(left, right),
            _ => None,
        }
    }

    /// The sum, from its numerator `top` over the least common denominator.
    fn sum_from(&self, other: &Fraction, g: u128, top: i128) -> Option<Fraction>
        requires g_is { g ≡ gcd_of self.now.under other.now.under }
        requires g_positive { 0 < g }
        requires g_small { g < size_limit }
        requires top_is { top ≡ sum_over self.now other.now }
        requires top_small { Fits top }
        ensures value { IfSumUnderFits self.now other.now result }
    {
        let h = gcd(top.unsigned_abs(), g);
        match size_product(
            size_quotient(self.under(), g),
            size_quotient(other.under(), h),
        ) {
            Some(denominator) => Some(Fraction::of_lowest(signed_quotient(top, h), denominator)),
            None => None,
        }
    }

    /// The sum, refused exactly where one of its named numbers is too large.
    #[tactic(auto, unfolding(ps_meaning::specs::Wide::SumIsWide))]
    pub fn add(&self, other: &Fraction) -> Result<Fraction, Wide>
        ensures value { IfOk result (λ r. r ≡ add self.now other.now) }
        ensures wide { IsErr result ↔ SumIsWide self.now other.now }
        ensures operands { IfErr result (Refuses Op.Add self.now other.now) }
    {
        let g = gcd(self.under(), other.under());
        if let Some(top) = self.sum_over(other, g) {
            if let Some(sum) = self.sum_from(other, g, top) {
                return Ok(sum);
            }
        }
        Err(Wide::of(Op::Add, self, other))
    }

    /// The difference, refused exactly where the sum with the other negated is.
    #[tactic(auto, unfolding(ps_meaning::specs::Wide::SumIsWide))]
    pub fn sub(&self, other: &Fraction) -> Result<Fraction, Wide>
        ensures value { IfOk result (λ r. r ≡ sub self.now other.now) }
        ensures wide { IsErr result ↔ SumIsWide self.now (neg other.now) }
        ensures operands { IfErr result (Refuses Op.Sub self.now other.now) }
    {
        match self.add(&other.neg()) {
            Ok(difference) => Ok(difference),
            Err(_) => Err(Wide::of(Op::Sub, self, other)),
        }
    }
}
