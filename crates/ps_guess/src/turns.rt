//! The limits of runs that are begun again and again while time is left.
ghost use Rattle.std.specs.Prelude.{◌<◌, ◌≤◌, ◌≡◌, ◌+◌, ◌*◌, ◌^◌, ◌↔◌, min, IsTrue};
ghost use Rattle.ps_generation.specs.Phases.{AreLimits};
ghost use Rattle.ps_guess.specs.Turns.{limits_in, turn_limits};
ghost use Rattle.ps_log.specs.declared.limits.TheConstants.{MOST_CONFLICTS};
ghost use Rattle.ps_guess.specs.declared.turns.TheConstants.{FIRST_ASKED, FIRST_TRIED, MOST_TURNS};

use ps_query::Limits;

/// How often a run is begun at most.
pub const MOST_TURNS: u32 = 32;

/// The most pivots of the first run.
const FIRST_PIVOTS: u64 = 8;

/// The most conflicts of a search of the first run.
const FIRST_CONFLICTS: u64 = 128;

/// How often the guesser is asked in the first turn.
const FIRST_ASKED: u64 = 16;

/// The most conflicts of the search for a guess of the first turn.
const FIRST_TRIED: u64 = 512;

// A limit that is doubled so often, as far as the greatest.
fn limit_at(first: u64, turn: u32, most: u64) -> u64
    requires few { turn < MOST_TURNS }
    requires small { first < 2 ^ 32 }
    ensures { result ≡ min (first * 2 ^ turn) most }
{
    let limit = first << turn;
    if limit < most { limit } else { most }
}

/// The limits of a run that was begun so often before: small ones at first, then twice as many pivots
/// each time and twice as many conflicts each other time, as far as the greatest. In the last turn
/// they are the greatest.
pub fn limits_at(most: Limits, turn: u32) -> Limits
    requires limits { AreLimits most }
    requires few { turn < MOST_TURNS }
    ensures within { AreLimits result }
    ensures pivots { result.pivots ≤ most.pivots }
    ensures conflicts { result.conflicts ≤ most.conflicts }
    ensures before { turn + 1 < MOST_TURNS → result ≡ turn_limits most turn }
    ensures last { turn + 1 ≡ MOST_TURNS → result ≡ most }
    ensures is { result ≡ limits_in most turn }
{
    if turn + 1 == MOST_TURNS {
        return most;
    }
    Limits {
        pivots: limit_at(FIRST_PIVOTS, turn, most.pivots),
        conflicts: limit_at(FIRST_CONFLICTS, turn / 2, most.conflicts),
    }
}

/// How often the guesser is asked in a turn: twice as often as in the one before.
pub fn asked_at(turn: u32) -> u64
    requires few { turn < MOST_TURNS }
    ensures { result ≡ FIRST_ASKED * 2 ^ turn }
{
    FIRST_ASKED << turn
}

/// How many clauses the search for a guess learns at most in a turn: twice as many as in the one
/// before, as far as the limit.
pub fn tried_at(most: Limits, turn: u32) -> u64
    requires limits { AreLimits most }
    requires few { turn < MOST_TURNS }
    ensures is { result ≡ min (FIRST_TRIED * 2 ^ turn) most.conflicts }
    ensures few { result ≤ MOST_CONFLICTS }
{
    limit_at(FIRST_TRIED, turn, most.conflicts)
}

/// Whether these limits are the greatest.
pub fn are_greatest(limits: Limits, most: Limits) -> bool
    ensures { IsTrue result ↔ limits ≡ most }
{
    limits == most
}
