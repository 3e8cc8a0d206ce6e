//! The limits of a report.
ghost use Rattle.std.specs.Prelude.{◌≡◌, ◌-◌, ◌^◌};
ghost use Rattle.ps_answer.specs.declared.limits.TheConstants.{MOST_PIVOTS};
ghost use Rattle.ps_answer.specs.declared.limits.TheConstants.{MOST_OPERAND, MOST_ROW, MOST_WORLD};
ghost use Rattle.ps_answer.specs.declared.limits.TheConstants.{MOST_ENTRIES, MOST_MULTIPLIERS};
ghost use Rattle.ps_answer.specs.declared.limits.TheConstants.{MOST_DUAL_STEPS, MOST_EVENTS};
ghost use Rattle.ps_answer.specs.declared.limits.TheConstants.{MOST_QUERIES};

use ps_frac::SIZE_LIMIT;
use ps_log::MOST_IDS;
use ps_table::MOST_ROWS;

/// The most pivots that a run may be allowed.
pub const MOST_PIVOTS: u64 = 1_000_000;

/// The greatest numerator and denominator of an operand.
pub const MOST_OPERAND: u128 = SIZE_LIMIT - 1;

/// Rows and homes are numbered from 0 up to this.
pub const MOST_ROW: u128 = MOST_ROWS as u128 - 1;

/// Worlds are numbered from 1 up to this: at most one is priced for each pivot, and one more.
pub const MOST_WORLD: u128 = MOST_PIVOTS as u128 + 1;

/// The most worlds of a model: one for each row.
pub const MOST_ENTRIES: u64 = MOST_ROWS as u64;

/// The most multipliers of a dual: one for each row of a bound.
pub const MOST_MULTIPLIERS: usize = MOST_ROWS - 1;

/// The most steps of a dual: as many as there are ids.
pub const MOST_DUAL_STEPS: u64 = MOST_IDS;

/// The most events of a trace: pivots, and priced worlds.
pub const MOST_EVENTS: u64 = 2 * MOST_PIVOTS + 1;

/// The most queries that a report answers.
pub const MOST_QUERIES: u64 = 16;

/// The limits by their numbers.
pub fn limits_have_these_numbers()
    ensures pivots { MOST_PIVOTS ≡ 1000000 }
    ensures operand { MOST_OPERAND ≡ 2 ^ 127 - 1 }
    ensures row { MOST_ROW ≡ 100 }
    ensures world { MOST_WORLD ≡ 1000001 }
    ensures entries { MOST_ENTRIES ≡ 101 }
    ensures multipliers { MOST_MULTIPLIERS ≡ 100 }
    ensures steps { MOST_DUAL_STEPS ≡ 2 ^ 41 }
    ensures events { MOST_EVENTS ≡ 2000001 }
    ensures queries { MOST_QUERIES ≡ 16 }
{}
