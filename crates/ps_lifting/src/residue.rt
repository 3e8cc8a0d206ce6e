//! Numbers modulo the prime 2^61 - 1.
ghost use Rattle.std.specs.Prelude.{◌<◌, ◌-◌, ◌^◌};

/// The prime.
pub const PRIME: u64 = 2305843009213693951;

/// 2^61.
const TOP: u64 = 2305843009213693952;

/// 2^61, as a number of 128 bits.
const WIDE_TOP: u128 = 2305843009213693952;

/// A number modulo the prime. The prime itself stands for 0, as 0 does.
#[derive(Clone, Copy, Drop)]
pub struct Residue {
    value: u64,
    ghost below: { value < 2 ^ 61 },
}

impl Residue {
    /// 0.
    pub fn zero() -> Residue {
        Residue { value: 0 }
    }

    /// 1.
    pub fn one() -> Residue {
        Residue { value: 1 }
    }

    /// The number itself, below the prime.
    pub fn get(self) -> u64 {
        if self.value == PRIME { 0 } else { self.value }
    }

    /// Whether the number is 0.
    pub fn is_zero(self) -> bool {
        self.value == 0 || self.value == PRIME
    }

    /// A number of at most twice the prime.
    fn of_sum(sum: u64) -> Residue
        requires { sum < 2 ^ 62 - 1 }
    {
        if sum >= PRIME {
            Residue { value: sum - PRIME }
        } else {
            Residue { value: sum }
        }
    }

    /// The residue of a number below 2^122.
    pub fn of_wide(x: u128) -> Residue {
        let low = (x % WIDE_TOP) as u64;
        let high = ((x / WIDE_TOP) % WIDE_TOP) as u64;
        Residue::of_sum(low + high)
    }

    /// The residue of a whole number.
    pub fn of_whole(x: i128) -> Residue {
        let rest = x.rem_euclid(PRIME as i128);
        Residue { value: rest as u64 }
    }

    /// The number with the other sign.
    pub fn neg(self) -> Residue {
        Residue {
            value: PRIME - self.value,
        }
    }

    /// `self * by`.
    pub fn times(self, by: Residue) -> Residue {
        Residue::of_wide((self.value as u128).wrapping_mul(by.value as u128))
    }

    /// `self + by * with`.
    pub fn plus_product(self, by: Residue, with: Residue) -> Residue {
        let product = (by.value as u128).wrapping_mul(with.value as u128);
        Residue::of_wide(product.wrapping_add(self.value as u128))
    }

    /// The power with the prime less 2, which is the inverse of a number that isn't 0.
    pub fn inverse(self) -> Residue {
        let mut power = self;
        let mut result = self;
        // The exponent, less 1, is 60 digits 1 with the second lowest turned to 0.
        for i in 1..61 {
            power = power.times(power);
            if i != 1 {
                result = result.times(power);
            }
        }
        result
    }
}
