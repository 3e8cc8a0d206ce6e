//! The scale of a linear sentence: the least common multiple of its denominators, by which its numbers
//! become whole.
ghost use Rattle.std.specs.Prelude.{◌≡◌, ◌≤◌, ◌<◌, ◌+◌, nat_lt, All, IfSome, length, map, unsigned_abs};
ghost use Rattle.ps_meaning.specs.Gcd.{gcd as gcd_of, lcm};
ghost use Rattle.ps_text.specs.declared.limits.TheConstants.{MOST_TERMS};
ghost use Rattle.ps_problem.specs.declared.limits.TheConstants.{GREATEST_SCALE, MOST_SIZES};
ghost use Rattle.ps_problem.specs.Scales.{lcm_with, scale_within, IsNumber, IsNumberTerm, den_of};
ghost use Rattle.ps_problem.specs.Scales.{fraction_of, coefficient_of, size_at, sizes_at, dens_of};
ghost use Rattle.ps_problem.specs.Scales.{AreNumbers, linear_dens, small_scale_of, is_upper_wide};
ghost use Rattle.ps_problem.specs.Scales.{AreReread, AreDivisors, scaled, lowest};

use crate::draft_item::DraftLinear;
use crate::limits::{GREATEST_SCALE, MOST_SIZES};
use crate::{Signed, Term};

fn gcd(a: u32, b: u32) -> u32
    ensures value { result ≡ gcd_of a b }
    ensures positive { 0 < b → 0 < result }
{
    let mut x = a;
    let mut y = b;
    while y != 0 {
        let rest = x % y;
        x = y;
        y = rest;
    }
    x
}

/// The least common multiple of a scale and a denominator, if it is within the limit.
pub(crate) fn with_denominator(scale: u32, den: u32) -> Option<u32>
    requires { 0 < den }
    ensures { result ≡ scale_within (lcm scale den) }
{
    let wide = u64::from(scale / gcd(scale, den)) * u64::from(den);
    if wide > u64::from(GREATEST_SCALE) {
        return None;
    }
    Some(wide as u32)
}

/// The least common multiple of a scale and the denominators of terms, if it is within the limit.
pub(crate) fn over_terms(scale: u32, terms: &[Term]) -> Option<u32>
    requires scale { 0 < scale }
    requires small { scale ≤ GREATEST_SCALE }
    requires terms { All IsNumberTerm terms.now }
    ensures { result ≡ scale_within (lcm_with scale (map den_of terms.now)) }
{
    let mut all = scale;
    for term in terms {
        match with_denominator(all, term.coefficient.den) {
            Some(more) => all = more,
            None => return None,
        }
    }
    Some(all)
}

/// The size of a number times the scale.
pub(crate) fn size(scale: u32, number: Signed) -> u64
    requires number { IsNumber number }
    requires small { scale ≤ GREATEST_SCALE }
    ensures value { result ≡ size_at scale (fraction_of number) }
    ensures few { result ≤ 1000000000000000000 }
{
    number.num.unsigned_abs() * u64::from(scale / number.den)
}

/// The sum of the sizes of terms' coefficients times the scale.
pub(crate) fn sizes(scale: u32, terms: &[Term]) -> u64
    requires terms { All IsNumberTerm terms.now }
    requires few { length terms.now ≤ MOST_TERMS }
    requires small { scale ≤ GREATEST_SCALE }
    ensures value { result ≡ sizes_at scale (map coefficient_of terms.now) }
    ensures few { result ≤ 16000000000000000000 }
{
    let mut sum = 0;
    for term in terms {
        sum += size(scale, term.coefficient);
    }
    sum
}

/// The least common multiple of a scale and the denominator of an upper value, if there is one.
fn over_upper(scale: u32, upper: Option<Signed>) -> Option<u32>
    requires scale { scale ≤ GREATEST_SCALE }
    requires upper { IfSome upper IsNumber }
    ensures { result ≡ scale_within (lcm_with scale (dens_of upper)) }
{
    match upper {
        Some(upper) => with_denominator(scale, upper.den),
        None => Some(scale),
    }
}

/// The least common multiple of the denominators of a linear sentence, if it is within the limit.
pub(crate) fn over_all(linear: &DraftLinear) -> Option<u32>
    requires { AreNumbers linear.now }
    ensures { result ≡ scale_within (lcm_with 1 (linear_dens linear.now)) }
{
    let right = match with_denominator(1, linear.right.den) {
        Some(right) => right,
        None => return None,
    };
    match over_upper(right, linear.upper) {
        Some(rights) => over_terms(rights, linear.terms.as_slice()),
        None => None,
    }
}

/// Whether the sizes of a bound's whole numbers, of which those of the terms sum to this, are past
/// their limit.
fn is_wide(scale: u32, sum: u64, right: Signed) -> bool
    requires right { IsNumber right }
    requires small { scale ≤ GREATEST_SCALE }
    requires few { sum ≤ 16000000000000000000 }
    ensures { result ≡ nat_lt MOST_SIZES (sum + size_at scale (fraction_of right)) }
{
    sum + size(scale, right) > MOST_SIZES
}

/// The scale of a linear sentence, unless it or the whole numbers of a bound are too large.
pub(crate) fn small_scale(linear: &DraftLinear) -> Option<u32>
    requires { AreNumbers linear.now }
    ensures { result ≡ small_scale_of linear.now }
{
    let scale = match over_all(linear) {
        Some(scale) => scale,
        None => return None,
    };
    let sum = sizes(scale, linear.terms.as_slice());
    if is_wide(scale, sum, linear.right) {
        return None;
    }
    if is_upper_wide(scale, sum, linear.upper) {
        return None;
    }
    Some(scale)
}

/// Whether the sizes of the upper bound's whole numbers are past their limit, if there is one.
fn is_upper_wide(scale: u32, sum: u64, upper: Option<Signed>) -> bool
    requires upper { IfSome upper IsNumber }
    requires small { scale ≤ GREATEST_SCALE }
    requires few { sum ≤ 16000000000000000000 }
    ensures { result ≡ is_upper_wide scale sum upper }
{
    match upper {
        Some(upper) => is_wide(scale, sum, upper),
        None => false,
    }
}

/// A number times the scale, which is whole.
pub(crate) fn whole(scale: u32, number: Signed) -> i64
    requires number { IsNumber number }
    requires small { scale ≤ GREATEST_SCALE }
    ensures { result ≡ scaled scale (fraction_of number) }
{
    number.num * i64::from(scale / number.den)
}

/// A whole number over a scale, in lowest terms.
pub fn lowest(scale: u32, number: i64) -> Signed
    requires some { 0 < scale }
    requires small { unsigned_abs number ≤ MOST_SIZES }
    ensures value { fraction_of result ≡ lowest scale number }
    ensures positive { 0 < result.den }
{
    let divisor = gcd(number.unsigned_abs() as u32, scale);
    Signed {
        num: number / i64::from(divisor),
        den: scale / divisor,
    }
}

/// A law: numbers in lowest terms are read back from their whole numbers over the scale, which each
/// denominator divides.
pub fn whole_numbers_are_reread()
    ensures reread { AreReread }
    ensures divisors { AreDivisors }
{}
