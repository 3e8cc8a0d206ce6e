//! The limits of the numbers, and of decimals.

ghost use Rattle.std.specs.Prelude.{◌≡◌, ◌^◌, pos};
ghost use Rattle.ps_meaning.specs.Wide.{size_limit};
ghost use Rattle.ps_frac.specs.declared.limits.TheConstants.{SIZE_LIMIT, MOST_MULTIPLE};
ghost use Rattle.ps_frac.specs.declared.limits.TheConstants.{MOST_DIGITS, MOST_UNITS};

/// Above the size of every number that a fraction holds.
pub const SIZE_LIMIT: u128 = 1 << 127;

/// The greatest limit of a least common multiple.
pub const MOST_MULTIPLE: i128 = 1 << 126;

/// Above every number that fits 64 bits.
pub(crate) const WORD: u128 = 1 << 64;

/// Sizes below it fit `i64`, and the product of two of them fits a fraction.
pub(crate) const HALF_WORD: u128 = 1 << 63;

/// The most digits behind the point of a decimal.
pub const MOST_DIGITS: u32 = 18;

/// The units of 1, where it has as many digits as a decimal may have.
pub(crate) const MOST_UNITS: u128 = 1_000_000_000_000_000_000;

/// The limits by their numbers.
pub fn limits_have_these_numbers()
    ensures size { SIZE_LIMIT ≡ size_limit }
    ensures multiple { MOST_MULTIPLE ≡ pos (2 ^ 126) }
    ensures digits { MOST_DIGITS ≡ 18 }
    ensures units { MOST_UNITS ≡ 10 ^ MOST_DIGITS }
{}
