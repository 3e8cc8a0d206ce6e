//! Sizes and tolerances.
ghost use Rattle.std.specs.Prelude.{◌≡◌};
ghost use Rattle.ps_simplex_float.specs.declared.limits.TheConstants.{MOST_ROWS};

/// The most rows of a program.
pub const MOST_ROWS: usize = 1024;

/// The limit by its number.
pub fn limits_have_these_numbers()
    ensures { MOST_ROWS ≡ 1024 }
{}

/// A reduced cost below its negative improves; a value below its negative is not feasible.
pub(crate) const FEASIBLE: f64 = 1e-9;

/// The least entry that blocks a column that enters.
pub(crate) const LEAST_PIVOT: f64 = 1e-8;

/// The least entry in a row of an artificial column that makes it leave in phase two.
pub(crate) const LEAST_EXCHANGE: f64 = 1e-7;

/// The least pivot of an inversion.
pub(crate) const LEAST_INVERTED: f64 = 1e-11;

/// How much a value that is 0 is perturbed at least.
pub(crate) const PERTURBATION: f64 = 1e-6;

/// How many degenerate pivots in a row make the values be perturbed.
pub(crate) const MOST_DEGENERATE: u32 = 20;

/// The least step of a pivot that isn't degenerate.
pub(crate) const LEAST_STEP: f64 = 1e-10;

/// After so many pivots the basis is inverted afresh.
pub(crate) const MOST_UPDATES: u32 = 64;

/// How far the ratios of a dual step that count as equal may differ.
pub(crate) const SAME_RATIO: f64 = 1e-10;
