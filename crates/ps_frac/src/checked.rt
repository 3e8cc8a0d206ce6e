//! Operations on 128-bit numbers whose results are at most 2^127 - 1 in size.

ghost use Rattle.std.specs.Prelude.{◌≡◌, ◌*◌, ◌/◌, ◌%◌, ◌<◌, ◌≤◌, pos, ◌+ℤ◌, ◌*ℤ◌, int_div};
ghost use Rattle.ps_meaning.specs.Wide.{Fits};
ghost use Rattle.ps_frac.specs.Fitting.{IfFits, IfSizeFits};

use crate::limits::{HALF_WORD, SIZE_LIMIT, WORD};

/// `n / g`, rounded down; most numbers fit 64 bits, where a division is much faster.
pub fn size_quotient(n: u128, g: u128) -> u128
    requires positive { 0 < g }
    ensures value { result ≡ n / g }
    ensures at_most { result ≤ n }
{
    if g == 1 {
        return n;
    }
    if n < WORD && g < WORD {
        return ((n as u64) / (g as u64)) as u128;
    }
    n / g
}

/// The rest of `n` by `g`; most numbers fit 64 bits, where a division is much faster.
pub fn size_remainder(n: u128, g: u128) -> u128
    requires positive { 0 < g }
    ensures value { result ≡ n % g }
{
    if n < WORD && g < WORD {
        return ((n as u64) % (g as u64)) as u128;
    }
    n % g
}

/// `n / g`, rounded toward zero.
pub fn signed_quotient(n: i128, g: u128) -> i128
    requires positive { 0 < g }
    requires size { Fits n }
    ensures value { result ≡ int_div n (pos g) }
{
    let size = size_quotient(n.unsigned_abs(), g) as i128;
    if n < 0 { -size } else { size }
}

/// `a * b`, where it is below the limit.
pub(crate) fn size_product(a: u128, b: u128) -> Option<u128>
    ensures value { IfSizeFits (a * b) result }
{
    if a < HALF_WORD && b < HALF_WORD {
        return Some((a as u64 as u128) * (b as u64 as u128));
    }
    match a.checked_mul(b) {
        Some(size) if size < SIZE_LIMIT => Some(size),
        _ => None,
    }
}

/// `a * b`, where its size is below the limit.
pub(crate) fn signed_product(a: i128, b: i128) -> Option<i128>
    ensures value { IfFits (a *ℤ b) result }
{
    if a.unsigned_abs() < HALF_WORD && b.unsigned_abs() < HALF_WORD {
        return Some((a as i64 as i128) * (b as i64 as i128));
    }
    match a.checked_mul(b) {
        Some(number) if number != i128::MIN => Some(number),
        _ => None,
    }
}

/// `a + b`, where its size is below the limit.
pub(crate) fn signed_sum(a: i128, b: i128) -> Option<i128>
    ensures value { IfFits (a +ℤ b) result }
{
    match a.checked_add(b) {
        Some(number) if number != i128::MIN => Some(number),
        _ => None,
    }
}
