//! The limits of a text.
ghost use Rattle.std.specs.Prelude.{◌≡◌};
ghost use Rattle.ps_text.specs.declared.limits.TheConstants.{LONGEST_WORD, MOST_OPEN};
ghost use Rattle.ps_text.specs.declared.limits.TheConstants.{GREATEST_DENOMINATOR, MOST_DECIMALS};
ghost use Rattle.ps_text.specs.declared.limits.TheConstants.{GREATEST_NUMBER, MOST_TERMS};

use ps_meaning::LONGEST_NAME;

/// The most bytes of a word, as of a name.
pub const LONGEST_WORD: usize = LONGEST_NAME;

/// The most of `!`, `(` and `->` that are open at once in a formula.
pub const MOST_OPEN: usize = 100;

/// The greatest denominator.
pub const GREATEST_DENOMINATOR: u32 = 1_000_000;

/// The most digits behind the point.
pub const MOST_DECIMALS: u8 = 6;

/// The greatest number of a linear sentence.
pub const GREATEST_NUMBER: u32 = 1_000_000;

/// The most terms of a linear sentence.
pub const MOST_TERMS: u8 = 16;

/// The limits by their numbers.
pub fn limits_have_these_numbers()
    ensures word { LONGEST_WORD ≡ 32 }
    ensures open { MOST_OPEN ≡ 100 }
    ensures denominator { GREATEST_DENOMINATOR ≡ 1000000 }
    ensures decimals { MOST_DECIMALS ≡ 6 }
    ensures number { GREATEST_NUMBER ≡ 1000000 }
    ensures terms { MOST_TERMS ≡ 16 }
{}
