//! Numbers modulo the fourth power of the prime, by digits.
ghost use Rattle.std.specs.Prelude.{◌≤◌, ◌^◌, IfSome, unsigned_abs};

use crate::residue::PRIME;

/// What numerators and denominators are at most in size: 2^90.
pub const LIMIT: u128 = 1237940039285380274899124224;

/// The prime, as a number of 128 bits.
const WIDE_PRIME: u128 = 2305843009213693951;

/// A number below the fourth power of the prime, by its digits, the lowest first.
#[derive(Clone, Copy, Drop)]
pub struct Number {
    pub(crate) ones: u64,
    pub(crate) primes: u64,
    pub(crate) squares: u64,
    pub(crate) cubes: u64,
}

// The digit of a sum, and what is carried.
fn split(sum: u128) -> (u64, u128) {
    ((sum % WIDE_PRIME) as u64, sum / WIDE_PRIME)
}

fn product(a: u64, b: u64) -> u128 {
    (a as u128).wrapping_mul(b as u128)
}

// The number of two digits.
fn of_two(primes: u64, ones: u64) -> u128 {
    (primes as u128)
        .wrapping_mul(WIDE_PRIME)
        .wrapping_add(ones as u128)
}

fn within(size: u128) -> Option<i128>
    ensures { IfSome result (λ x. unsigned_abs x ≤ 2 ^ 90) }
{
    if size <= LIMIT {
        Some(size as i128)
    } else {
        None
    }
}

fn negative_within(size: u128) -> Option<i128>
    ensures { IfSome result (λ x. unsigned_abs x ≤ 2 ^ 90) }
{
    if size <= LIMIT {
        Some(-(size as i128))
    } else {
        None
    }
}

impl Number {
    /// The number times a factor of two digits.
    pub fn times(self, factor: u128) -> Number {
        let low = (factor % WIDE_PRIME) as u64;
        let high = ((factor / WIDE_PRIME) % WIDE_PRIME) as u64;
        let (ones, carry) = split(product(self.ones, low));
        let sum = product(self.primes, low).wrapping_add(product(self.ones, high));
        let (primes, carry) = split(sum.wrapping_add(carry));
        let sum = product(self.squares, low).wrapping_add(product(self.primes, high));
        let (squares, carry) = split(sum.wrapping_add(carry));
        let sum = product(self.cubes, low).wrapping_add(product(self.squares, high));
        let (cubes, _) = split(sum.wrapping_add(carry));
        Number {
            ones,
            primes,
            squares,
            cubes,
        }
    }

    /// The number of least size, of either sign, if it is at most the limit.
    pub fn small(self) -> Option<i128>
        ensures { IfSome result (λ x. unsigned_abs x ≤ 2 ^ 90) }
    {
        if self.cubes == 0 && self.squares == 0 {
            return within(of_two(self.primes, self.ones));
        }
        let most = PRIME - 1;
        if self.cubes == most && self.squares == most {
            let primes = most.wrapping_sub(self.primes);
            return negative_within(of_two(primes, PRIME.wrapping_sub(self.ones)));
        }
        None
    }
}
