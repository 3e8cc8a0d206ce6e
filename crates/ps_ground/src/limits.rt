//! The limits of ground formulas.
ghost use Rattle.std.specs.Prelude.{◌≡◌};
ghost use Rattle.ps_ground.specs.declared.limits.TheConstants.{MOST_MARKS};

/// The most marks of the ground formulas of a text.
pub const MOST_MARKS: usize = 20_000;

/// The limit by its number.
pub fn limits_have_these_numbers()
    ensures marks { MOST_MARKS ≡ 20000 }
{}
