//! Greatest common divisors of numbers of a table.
ghost use Rattle.std.specs.Prelude.{◌<◌};
ghost use Rattle.std.specs.Int.{IsGcd};

use ps_frac::{gcd, size_remainder};

/// The greatest common divisor of two numbers that fit 64 bits, of which the second isn't 0.
pub(crate) fn gcd_of_words(a: u64, b: u64) -> u64
    requires not_zero { 0 < b }
    ensures value { IsGcd a b result }
    ensures positive { 0 < result }
{
    gcd(a as u128, b as u128) as u64
}

/// The greatest common divisor of a number and of one that mostly divides it, so that its rest is
/// looked at first.
pub(crate) fn gcd_by_rest(n: u128, g: u128) -> u128
    requires positive { 0 < g }
    ensures value { IsGcd n g result }
{
    let rest = size_remainder(n, g);
    if rest == 0 {
        return g;
    }
    gcd(g, rest)
}
