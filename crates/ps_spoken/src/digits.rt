//! How many digits the decimals of bounds have.
ghost use Rattle.std.specs.Prelude.{◌≡◌, ◌<◌, ◌≤◌, ◌+◌, ◌*◌};
ghost use Rattle.ps_frac.specs.declared.limits.TheConstants.{MOST_DIGITS};
ghost use Rattle.ps_spoken.specs.declared.digits.TheConstants.{MORE_DIGITS};
ghost use Rattle.ps_spoken.specs.Digits.{digits_from, hides_distance, hides_order, shown_digits};

use ps_frac::{Decimal, Fraction, MOST_DIGITS, has_decimals};
use std::cmp::Ordering;

/// So many digits are added at once where fewer hide a distance.
pub const MORE_DIGITS: u32 = 3;

// Whether so many digits hide that one number is below another: both have one decimal.
#[tactic(auto, unfolding(crate::specs::Digits::hides_order))]
fn hide_order(digits: u32, lower: &Fraction, upper: &Fraction) -> bool
    requires some { 0 < digits }
    requires few { digits ≤ MOST_DIGITS }
    ensures { result ≡ hides_order digits lower.now upper.now }
{
    match lower.cmp(upper) {
        Ordering::Less => {
            has_decimals(lower)
                && has_decimals(upper)
                && (Decimal::down(lower, digits) == Decimal::down(upper, digits)
                    || Decimal::up(lower, digits) == Decimal::up(upper, digits))
        }
        Ordering::Equal | Ordering::Greater => false,
    }
}

// Whether so many digits hide that 0 is below a bound, one bound below another, or a bound below 1.
#[tactic(auto, unfolding(crate::specs::Digits::hides_distance))]
fn hide_distance(digits: u32, lower: &Fraction, upper: &Fraction) -> bool
    requires some { 0 < digits }
    requires few { digits ≤ MOST_DIGITS }
    ensures { result ≡ hides_distance digits lower.now upper.now }
{
    hide_order(digits, &Fraction::new(0, 1), lower)
        || hide_order(digits, lower, upper)
        || hide_order(digits, upper, &Fraction::new(1, 1))
}

/// How many digits are shown of two bounds: as many as are asked for, and three more each time
/// until they no longer hide that 0, the bounds and 1 differ; at most `MOST_DIGITS`.
pub(crate) fn shown_digits(digits: u32, lower: &Fraction, upper: &Fraction) -> u32
    requires some { 0 < digits }
    requires few { digits ≤ MOST_DIGITS }
    ensures value { result ≡ shown_digits digits lower.now upper.now }
    ensures at_least { digits ≤ result }
    ensures at_most { result ≤ MOST_DIGITS }
{
    let mut shown = digits;
    for _ in 0..(MOST_DIGITS - digits) / MORE_DIGITS {
        if !hide_distance(shown, lower, upper) {
            return shown;
        }
        shown += MORE_DIGITS;
    }
    shown
}
