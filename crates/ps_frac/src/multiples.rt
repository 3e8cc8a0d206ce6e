//! The least common multiple.

ghost use Rattle.std.specs.Prelude.{pos, ◌<ℤ◌, ◌≤ℤ◌};
ghost use Rattle.std.specs.Option.{SomeIff, IfSome};
ghost use Rattle.ps_frac.specs.CommonMultiples.{lcm_of, IsLcm};

use crate::checked::size_product;
use crate::divisors::gcd;
use crate::limits::MOST_MULTIPLE;

/// The least common multiple of `a` and `b`, and `None` exactly where it is above `limit`.
pub fn lcm_upto(a: i128, b: i128, limit: i128) -> Option<i128>
    requires a_positive { pos 0 <ℤ a }
    requires a_within { a ≤ℤ limit }
    requires b_positive { pos 0 <ℤ b }
    requires b_within { b ≤ℤ limit }
    requires limit_small { limit ≤ℤ MOST_MULTIPLE }
    ensures least { IfSome result (IsLcm a b) }
    ensures within { SomeIff result (lcm_of a b ≤ℤ limit) (lcm_of a b) }
{
    let first = a.unsigned_abs();
    let second = b.unsigned_abs();
    match size_product(first / gcd(first, second), second) {
        Some(multiple) if multiple <= limit.unsigned_abs() => Some(multiple as i128),
        _ => None,
    }
}
