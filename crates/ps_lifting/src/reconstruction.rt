//! The denominators of numbers modulo the fourth power of the prime.
ghost use Rattle.std.specs.Prelude.{◌≤◌, ◌^◌, IfSome};

use crate::number::{LIMIT, Number};
use crate::wide::Wide;

/// How often a number is taken away from another at most: each time one of two of 244 bits loses a
/// bit, or they are swapped.
const MOST_TURNS: u32 = 1000;

// A remainder, and how often the number is in it, apart from the sign.
#[derive(Clone, Copy, Drop)]
struct Rest {
    rest: Wide,
    times: u128,
}

// The greatest power of two by which the number stays below another that is not below it.
fn shift(a: Wide, b: Wide) -> u32 {
    let by = a.bits().saturating_sub(b.bits());
    if by > 0 && a.is_below(b.shift_left(by)) {
        by - 1
    } else {
        by
    }
}

// A multiple taken away, where the counts stay within the limit.
fn taken(a: Rest, b: Rest) -> Option<Rest> {
    let by = shift(a.rest, b.rest);
    if by > 90 || b.times > LIMIT >> by {
        return None;
    }
    Some(Rest {
        rest: a.rest.minus(b.rest.shift_left(by)),
        times: a.times.wrapping_add(b.times << by),
    })
}

// The count, where it is within the limit and not 0.
fn within(times: u128) -> Option<u128>
    ensures { IfSome result (λ n. n ≤ 2 ^ 90) }
{
    if times <= LIMIT && times != 0 {
        Some(times)
    } else {
        None
    }
}

/// A factor that makes the number small, if there is a fraction within the limit.
pub fn denominator_of(x: Number) -> Option<u128>
    ensures { IfSome result (λ n. n ≤ 2 ^ 90) }
{
    let mut a = Rest {
        rest: Wide::modulus(),
        times: 0,
    };
    let mut b = Rest {
        rest: Wide::of_number(x),
        times: 1,
    };
    for _ in 0..MOST_TURNS {
        if b.rest.bits() <= 90 {
            return within(b.times);
        }
        if a.rest.is_below(b.rest) {
            let kept = a;
            a = b;
            b = kept;
        } else {
            a = taken(a, b)?;
        }
    }
    None
}
