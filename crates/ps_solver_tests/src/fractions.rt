//! Extreme operands and the worked examples. The expected values were computed by Python's `fractions` and `math`.

mod cases;
mod numbers;

use cases::{CASES, Case};
use numbers::{DIVISORS, MULTIPLES};
use ps_frac::{Fraction, MOST_MULTIPLE, Op, Wide, gcd, lcm_upto};
use std::cmp::Ordering;

/// The largest numerator or denominator.
const MOST: i128 = i128::MAX;

/// The fraction, where a numerator and a denominator make one.
fn fraction(parts: (i128, i128)) -> Option<Fraction> {
    if parts.1 > 0 && parts.0 > i128::MIN {
        Some(Fraction::new(parts.0, parts.1))
    } else {
        None
    }
}

/// Whether the answer is the fraction, or the refusal of the operation with its operands.
fn agrees(
    answer: Result<Fraction, Wide>,
    expected: Option<(i128, i128)>,
    op: Op,
    left: &Fraction,
    right: &Fraction,
) -> bool {
    match answer {
        Ok(value) => expected == Some((value.numerator(), value.denominator())),
        Err(wide) => {
            expected.is_none() && wide.op == op && wide.left == *left && wide.right == *right
        }
    }
}

fn sums_agree(case: &Case, left: &Fraction, right: &Fraction) -> bool {
    agrees(left.add(right), case.sum, Op::Add, left, right)
        && agrees(left.sub(right), case.difference, Op::Sub, left, right)
}

fn products_agree(case: &Case, left: &Fraction, right: &Fraction) -> bool {
    if !agrees(left.mul(right), case.product, Op::Mul, left, right) {
        return false;
    }
    right.is_zero() || agrees(left.div(right), case.quotient, Op::Div, left, right)
}

fn order_agrees(case: &Case, left: &Fraction, right: &Fraction) -> bool {
    left.cmp(right) == case.order && right.cmp(left) == case.order.reverse()
}

fn signs_agree(case: &Case, left: &Fraction) -> bool {
    left.neg().neg() == *left && left.is_negative() == (case.left.0 < 0)
}

fn case_agrees(case: &Case) -> bool {
    match (fraction(case.left), fraction(case.right)) {
        (Some(left), Some(right)) => {
            sums_agree(case, &left, &right)
                && products_agree(case, &left, &right)
                && order_agrees(case, &left, &right)
                && signs_agree(case, &left)
        }
        _ => false,
    }
}

fn cases_agree() -> bool {
    for case in &CASES {
        if !case_agrees(case) {
            return false;
        }
    }
    true
}

#[test]
fn extreme_operands(rt: HostRuntime) {
    assert!(rt; cases_agree());
}

/// `1/2 + 1/3 = 5/6`.
fn halves_and_thirds() -> bool {
    let half = Fraction::new(1, 2);
    let third = Fraction::new(2, 6);
    agrees(half.add(&third), Some((5, 6)), Op::Add, &half, &third)
}

/// The sum of the two least fractions above 0 is too wide, and they are in order.
fn least_fractions() -> bool {
    let least = Fraction::new(1, MOST);
    let next = Fraction::new(1, MOST - 1);
    agrees(least.add(&next), None, Op::Add, &least, &next) && least.cmp(&next) == Ordering::Less
}

#[test]
fn worked_examples(rt: HostRuntime) {
    assert!(rt; halves_and_thirds());
    assert!(rt; least_fractions());
}

fn is_multiple(a: i128, b: i128, limit: i128, expected: Option<i128>) -> bool {
    if a > 0 && b > 0 && a <= limit && b <= limit && limit <= MOST_MULTIPLE {
        lcm_upto(a, b, limit) == expected
    } else {
        false
    }
}

fn are_multiples() -> bool {
    for (a, b, limit, expected) in MULTIPLES {
        if !is_multiple(a, b, limit, expected) {
            return false;
        }
    }
    true
}

#[test]
fn common_multiples(rt: HostRuntime) {
    assert!(rt; are_multiples());
}

fn is_divisor(a: u128, b: u128, expected: u128) -> bool {
    gcd(a, b) == expected && gcd(b, a) == expected
}

fn are_divisors() -> bool {
    for (a, b, expected) in DIVISORS {
        if !is_divisor(a, b, expected) {
            return false;
        }
    }
    true
}

#[test]
fn common_divisors(rt: HostRuntime) {
    assert!(rt; are_divisors());
}
