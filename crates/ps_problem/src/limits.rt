//! The limits of a problem.
ghost use Rattle.std.specs.Prelude.{◌≡◌, ◌-◌, ◌^◌};
ghost use Rattle.ps_problem.specs.declared.limits.TheConstants.{MOST_BOUNDS, MOST_QUERIES};
ghost use Rattle.ps_problem.specs.declared.limits.TheConstants.{MOST_NESTING, MOST_DENOMINATOR};
ghost use Rattle.ps_problem.specs.declared.limits.TheConstants.{MOST_DRAFTED, MOST_ROW_VALUE};
ghost use Rattle.ps_problem.specs.declared.limits.TheConstants.{GREATEST_SCALE, MOST_SIZES};

use ps_text::{GREATEST_DENOMINATOR, MOST_OPEN};

/// The most bounds; an interval has two.
pub const MOST_BOUNDS: usize = 100;
/// The most queries.
pub const MOST_QUERIES: usize = 16;
/// How deep the canonical spelling of a formula nests at most.
pub const MOST_NESTING: usize = MOST_OPEN;
/// The greatest denominator of a value.
pub const MOST_DENOMINATOR: usize = GREATEST_DENOMINATOR as usize;
/// The most names, formulas and items of a draft.
pub const MOST_DRAFTED: u32 = u32::MAX;
/// The greatest size of what the row of a bound has in a world.
pub const MOST_ROW_VALUE: u32 = u32::MAX;
/// The greatest scale of a linear sentence.
pub const GREATEST_SCALE: u32 = 1_000_000;
/// What the sizes of a linear bound's whole numbers sum to at most.
pub const MOST_SIZES: u64 = 2_000_000;

/// The limits by their numbers.
pub fn limits_have_these_numbers()
    ensures bounds { MOST_BOUNDS ≡ 100 }
    ensures queries { MOST_QUERIES ≡ 16 }
    ensures nesting { MOST_NESTING ≡ 100 }
    ensures denominator { MOST_DENOMINATOR ≡ 1000000 }
    ensures drafted { MOST_DRAFTED ≡ 2 ^ 32 - 1 }
    ensures row { MOST_ROW_VALUE ≡ 2 ^ 32 - 1 }
    ensures scale { GREATEST_SCALE ≡ 1000000 }
    ensures sizes { MOST_SIZES ≡ 2000000 }
{}
