//! The order of fractions.

ghost use Rattle.std.specs.Prelude.{◌≡◌, ◌*◌, ◌<◌};
ghost use Rattle.std.specs.Ordering.{nat_cmp};
ghost use Rattle.ps_meaning.specs.Order.{order_of};

use crate::fraction::Fraction;
use std::cmp::Ordering;

/// The order of `a / b` and `c / d`, by whole parts and then the rests, turned over.
fn cmp_sizes(a: u128, b: u128, c: u128, d: u128) -> Ordering
    requires b_positive { 0 < b }
    requires d_positive { 0 < d }
    ensures value { result ≡ nat_cmp (a * d) (c * b) }
{
    let mut left = a;
    let mut left_under = b;
    let mut right = c;
    let mut right_under = d;
    loop {
        let whole = left / left_under;
        let other = right / right_under;
        if whole != other {
            return whole.cmp(&other);
        }
        let left_rest = left % left_under;
        let right_rest = right % right_under;
        if left_rest == 0 || right_rest == 0 {
            return left_rest.cmp(&right_rest);
        }
        left = right_under;
        right = left_under;
        left_under = right_rest;
        right_under = left_rest;
    }
}

impl Fraction {
    /// The order of the two numbers.
    pub fn cmp(&self, other: &Fraction) -> Ordering
        ensures value { result ≡ order_of self.now other.now }
    {
        let left = self.numerator().unsigned_abs();
        let right = other.numerator().unsigned_abs();
        match (self.is_negative(), other.is_negative()) {
            (true, false) => Ordering::Less,
            (false, true) => Ordering::Greater,
            (false, false) => cmp_sizes(left, self.under(), right, other.under()),
            (true, true) => cmp_sizes(right, other.under(), left, self.under()),
        }
    }
}
