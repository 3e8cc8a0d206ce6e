//! Whole numbers of 256 bits.

use crate::number::Number;

/// A whole number of 256 bits.
#[derive(Clone, Copy, Drop)]
pub struct Wide {
    high: u128,
    low: u128,
}

impl Wide {
    /// A number of 64 bits.
    fn of(x: u64) -> Wide {
        Wide {
            high: 0,
            low: x as u128,
        }
    }

    /// The number of bits.
    pub fn bits(self) -> u32 {
        if self.high == 0 {
            128 - self.low.leading_zeros()
        } else {
            256 - self.high.leading_zeros()
        }
    }

    /// Whether the number is below another.
    pub fn is_below(self, other: Wide) -> bool {
        self.high < other.high || self.high == other.high && self.low < other.low
    }

    /// The sum, without what is carried out.
    fn plus(self, other: Wide) -> Wide {
        let (low, carry) = self.low.overflowing_add(other.low);
        let high = self.high.wrapping_add(other.high);
        Wide {
            high: high.wrapping_add(carry as u128),
            low,
        }
    }

    /// The difference, where the other isn't above.
    pub fn minus(self, other: Wide) -> Wide {
        let (low, borrow) = self.low.overflowing_sub(other.low);
        let high = self.high.wrapping_sub(other.high);
        Wide {
            high: high.wrapping_sub(borrow as u128),
            low,
        }
    }

    /// The number times a power of two, without what is carried out.
    pub fn shift_left(self, by: u32) -> Wide {
        if by == 0 {
            return self;
        }
        if by < 128 {
            return Wide {
                high: (self.high << by) | (self.low >> (128 - by)),
                low: self.low << by,
            };
        }
        if by < 256 {
            return Wide {
                high: self.low << (by - 128),
                low: 0,
            };
        }
        Wide { high: 0, low: 0 }
    }

    /// The number times the prime, and a digit.
    fn next(self, digit: u64) -> Wide {
        self.shift_left(61).minus(self).plus(Wide::of(digit))
    }

    /// The number of these digits.
    pub fn of_number(x: Number) -> Wide {
        Wide::of(x.cubes)
            .next(x.squares)
            .next(x.primes)
            .next(x.ones)
    }

    /// The fourth power of the prime.
    pub fn modulus() -> Wide {
        Wide::of(1).next(0).next(0).next(0).next(0)
    }
}
