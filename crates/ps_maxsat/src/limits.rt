//! The limit of weights.
ghost use Rattle.std.specs.Prelude.{◌≡◌, ◌^◌};
ghost use Rattle.ps_maxsat.specs.declared.limits.TheConstants.{MOST_TOTAL};

/// What the sizes of the weights and of the base sum to at most.
pub const MOST_TOTAL: u128 = 1 << 120;

/// The limit by its number.
pub fn limits_have_these_numbers()
    ensures total { MOST_TOTAL ≡ 2 ^ 120 }
{}
