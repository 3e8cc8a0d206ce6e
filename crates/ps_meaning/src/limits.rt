//! The limits of names and of the numbers that an answer prints.
ghost use Rattle.std.specs.Prelude.{◌≡◌, ◌^◌};
ghost use Rattle.ps_meaning.specs.declared.limits.TheConstants.{LONGEST_NAME, PRINTED_LIMIT};

/// The most bytes of an atom's name.
pub const LONGEST_NAME: usize = 32;

/// The greatest size of a number that an answer prints: of a weight or a total, of a multiplier,
/// and of a value's numerator and denominator.
pub const PRINTED_LIMIT: u128 = 1 << 90;

/// The limits by their numbers.
pub fn limits_have_these_numbers()
    ensures name { LONGEST_NAME ≡ 32 }
    ensures printed { PRINTED_LIMIT ≡ 2 ^ 90 }
{}
