//! The limits of formulas.
ghost use Rattle.std.specs.Prelude.{◌≡◌};
ghost use Rattle.ps_formula.specs.declared.limits.TheConstants.{MOST_ATOMS, MOST_NODES};

/// The most nodes of a list of formulas.
pub const MOST_NODES: usize = 1024;

/// The most atoms: their numbers are below this.
pub const MOST_ATOMS: usize = 128;

/// The limits by their numbers.
pub fn limits_have_these_numbers()
    ensures nodes { MOST_NODES ≡ 1024 }
    ensures atoms { MOST_ATOMS ≡ 128 }
{}
