//! The limits of variables, of constraints and of their ids.
ghost use Rattle.std.specs.Prelude.{◌≡◌, ◌^◌};
ghost use Rattle.ps_pb.specs.declared.limits.TheConstants.{MOST_IDS, MOST_SIZE, MOST_VARIABLES};

/// The variables are numbered from 1 up to this.
pub const MOST_VARIABLES: u32 = 1024;

/// What the coefficients of a constraint and the size of its degree sum to at most.
pub const MOST_SIZE: u128 = 1 << 126;

/// The greatest number that names a constraint.
pub const MOST_IDS: u64 = 1 << 41;

/// The limits by their numbers.
pub fn limits_have_these_numbers()
    ensures variables { MOST_VARIABLES ≡ 1024 }
    ensures size { MOST_SIZE ≡ 2 ^ 126 }
    ensures ids { MOST_IDS ≡ 2 ^ 41 }
{}
