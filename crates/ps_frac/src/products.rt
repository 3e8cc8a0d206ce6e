//! Products and quotients of fractions.

ghost use Rattle.std.specs.Prelude.{◌≡◌, ◌≢◌, ◌<◌, ◌↔◌, IsErr, IfOk, IfErr};
ghost use Rattle.ps_meaning.specs.Rational.{mul, div, inverse, zero_q};
ghost use Rattle.ps_meaning.specs.Wide.{product_over, product_under, ProductIsWide, size_limit};
ghost use Rattle.ps_frac.specs.Fitting.{IfFits, IfSizeFits, common};
ghost use Rattle.ps_frac.specs.Refusals.{Refuses};

use crate::checked::{signed_product, signed_quotient, size_product, size_quotient};
use crate::divisors::gcd;
use crate::fraction::Fraction;
use crate::wide::{Op, Wide};

impl Fraction {
    /// What is common to this numerator and the other's denominator.
    fn crosswise(&self, other: &Fraction) -> u128
        ensures value { result ≡ common self.now other.now }
        ensures positive { 0 < result }
        ensures small { result < size_limit }
    {
        gcd(self.numerator().unsigned_abs(), other.under())
    }

    /// The numerator of the product; `g` and `h` are what is common crosswise.
    fn product_over(&self, other: &Fraction, g: u128, h: u128) -> Option<i128>
        requires g_is { g ≡ common self.now other.now }
        requires g_positive { 0 < g }
        requires g_small { g < size_limit }
        requires h_is { h ≡ common other.now self.now }
        requires h_positive { 0 < h }
        requires h_small { h < size_limit }
        ensures value { IfFits (product_over self.now other.now) result }
    {
        signed_product(
            signed_quotient(self.numerator(), g),
            signed_quotient(other.numerator(), h),
        )
    }

    /// The denominator of the product.
    fn product_under(&self, other: &Fraction, g: u128, h: u128) -> Option<u128>
        requires g_is { g ≡ common self.now other.now }
        requires g_positive { 0 < g }
        requires h_is { h ≡ common other.now self.now }
        requires h_positive { 0 < h }
        ensures value { IfSizeFits (product_under self.now other.now) result }
    {
        size_product(
            size_quotient(self.under(), h),
            size_quotient(other.under(), g),
        )
    }

    /// The product, refused exactly where its numerator or denominator is too large.
    #[tactic(auto, unfolding(ps_meaning::specs::Wide::ProductIsWide))]
    pub fn mul(&self, other: &Fraction) -> Result<Fraction, Wide>
        ensures value { IfOk result (λ r. r ≡ mul self.now other.now) }
        ensures wide { IsErr result ↔ ProductIsWide self.now other.now }
        ensures operands { IfErr result (Refuses Op.Mul self.now other.now) }
    {
        let g = self.crosswise(other);
        let h = other.crosswise(self);
        match (
            self.product_over(other, g, h),
            self.product_under(other, g, h),
        ) {
            (Some(numerator), Some(denominator)) => Ok(Fraction::of_lowest(numerator, denominator)),
            _ => Err(Wide::of(Op::Mul, self, other)),
        }
    }

    /// The fraction turned over.
    fn reciprocal(&self) -> Fraction
        requires not_zero { self.now ≢ zero_q }
        ensures value { result ≡ inverse self.now }
    {
        let over = self.numerator();
        let under = self.under();
        if over < 0 {
            Fraction::of_lowest(-(under as i128), over.unsigned_abs())
        } else {
            Fraction::of_lowest(under as i128, over.unsigned_abs())
        }
    }

    /// The quotient, refused exactly where the product with the other turned over is.
    #[tactic(auto, unfolding(ps_meaning::specs::Wide::ProductIsWide))]
    pub fn div(&self, other: &Fraction) -> Result<Fraction, Wide>
        requires not_zero { other.now ≢ zero_q }
        ensures value { IfOk result (λ r. r ≡ div self.now other.now) }
        ensures wide { IsErr result ↔ ProductIsWide self.now (inverse other.now) }
        ensures operands { IfErr result (Refuses Op.Div self.now other.now) }
    {
        match self.mul(&other.reciprocal()) {
            Ok(quotient) => Ok(quotient),
            Err(_) => Err(Wide::of(Op::Div, self, other)),
        }
    }
}
