//! The law of limits that are enough.

ghost use Rattle.ps_runs.specs.Enough.{LimitsAreEnough};

/// With a limit of three times the ways to choose one thing more than there are rows, of one thing
/// more than there are rows and worlds in all, no part of a lawful answer is open for pivots.
pub fn enough()
    ensures enough { LimitsAreEnough }
{}
