//! Greatest common divisors.

ghost use Rattle.std.specs.Prelude.{◌≡◌, ◌*◌, ◌%◌, ◌^◌, ◌<◌, ◌≤◌};
ghost use Rattle.std.specs.Int.{w64, trailing_zeros, IsGcd};
ghost use Rattle.ps_meaning.specs.Gcd.{gcd as gcd_of};

use crate::limits::WORD;

/// The greatest common divisor of `a` and `b`, by Euclid's remainders: the plain program.
pub(crate) fn gcd_by_remainders(a: u128, b: u128) -> u128
    ensures value { result ≡ gcd_of a b }
{
    let mut x = a;
    let mut y = b;
    while y != 0 {
        let rest = x % y;
        x = y;
        y = rest;
    }
    x
}

/// `n` without its factors of two.
fn odd_part(n: u64) -> u64
    requires not_zero { 0 < n }
    ensures odd { result % 2 ≡ 1 }
    ensures exact { result * 2 ^ trailing_zeros w64 n ≡ n }
{
    n >> n.trailing_zeros()
}

/// The greatest common divisor of two odd numbers: it divides their difference, and the factors
/// of two there don't matter.
fn gcd_of_odds(a: u64, b: u64) -> u64
    requires left { a % 2 ≡ 1 }
    requires right { b % 2 ≡ 1 }
    ensures value { IsGcd a b result }
{
    let mut x = a;
    let mut y = b;
    while x != y {
        let low = if x < y { x } else { y };
        x = odd_part(x.abs_diff(y));
        y = low;
    }
    x
}

/// The greatest common divisor of two numbers that fit 64 bits.
fn gcd_of_words(a: u64, b: u64) -> u64
    ensures value { IsGcd a b result }
{
    if a == 0 {
        return b;
    }
    if b == 0 {
        return a;
    }
    let left = a.trailing_zeros();
    let right = b.trailing_zeros();
    let twos = if left < right { left } else { right };
    gcd_of_odds(odd_part(a), odd_part(b)) << twos
}

/// The greatest common divisor of `a` and `b`.
pub fn gcd(a: u128, b: u128) -> u128
    ensures value { result ≡ gcd_of a b }
    ensures positive { 0 < b → 0 < result }
    ensures at_most { 0 < b → result ≤ b }
{
    if a == b {
        return a;
    }
    if b == 1 {
        return 1;
    }
    if a < WORD && b < WORD {
        return gcd_of_words(a as u64, b as u64) as u128;
    }
    gcd_by_remainders(a, b)
}
