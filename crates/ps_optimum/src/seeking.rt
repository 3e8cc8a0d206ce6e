//! Searches for values, with their steps.
ghost use Rattle.std.specs.Prelude.{◌≡◌, ◌≤◌, ◌*◌, IfOk, pos, unsigned_abs};
ghost use Rattle.ps_log.specs.Limits.{IsGoalWithin};
ghost use Rattle.ps_log.specs.declared.limits.TheConstants.{MOST_CONFLICTS};
ghost use Rattle.ps_maxsat.specs.Limits.{IsNarrow, IsSoftWithin};
ghost use Rattle.ps_maxsat.specs.declared.limits.TheConstants.{MOST_TOTAL};
ghost use Rattle.ps_maxsat.specs.Values.{goal_of};
ghost use Rattle.ps_optimum.specs.Printed.{ArePrinted, IsPrintedSought, TellsPrinted};
ghost use Rattle.ps_optimum.specs.Searches.{HasPriced, IsSought, TellsEnded};
ghost use Rattle.ps_pb.specs.Weights.{IsWithin};

use ps_io::NoMemory;
use ps_log::{HeldLog, is_goal_within};
use ps_maxsat::{Priced, Wcnf, best};
use ps_pb::{Assignment, Constraint, Steps, from_weights};
use ps_sat::{Outcome, SearchError, search};
use std::alloc::Global;

/// What a search for a value of at least so much finds.
#[derive(Drop)]
pub(crate) enum Sought {
    /// An assignment that has it.
    Found(Assignment),
    /// The refutation that one has.
    Refuted(Steps),
    /// Its goal, and what it learned until it was spent.
    Spent(Constraint, Steps),
}

// The goal of a value of at least so much.
fn goal_of(alloc: Global, wcnf: &Wcnf, least: i128) -> Result<Constraint, NoMemory>
    requires soft { IsSoftWithin wcnf.now }
    requires sizes { IsNarrow wcnf.now }
    requires least { unsigned_abs least ≤ 2 * MOST_TOTAL }
    ensures value { IfOk result (λ g. g ≡ goal_of wcnf.now least) }
    ensures within { IfOk result (IsWithin wcnf.now.hard.variables) }
    ensures printed { IfOk result IsGoalWithin }
{
    let goal = from_weights(alloc, wcnf.soft.as_slice(), least - wcnf.base)?;
    // Called for its clauses: each constraint is within the limits of a goal.
    let _within = is_goal_within(&goal);
    Ok(goal)
}

// What is found of a value of at least 1 where the greatest was looked for.
fn sought_of(
    alloc: Global,
    wcnf: &Wcnf,
    priced: Priced,
    steps: Steps,
    conflicts: u64,
) -> Result<Sought, NoMemory>
    requires soft { IsSoftWithin wcnf.now }
    requires sizes { IsNarrow wcnf.now }
    requires priced { HasPriced wcnf.now conflicts priced steps }
    requires printed { ArePrinted conflicts steps }
    ensures sought { IfOk result (IsSought wcnf.now (pos 1) conflicts) }
    ensures printed { IfOk result (IsPrintedSought conflicts) }
{
    match priced {
        Priced::NoneAbove { last: _ } => Ok(Sought::Refuted(steps)),
        Priced::Best { assignment, .. } => Ok(Sought::Found(assignment)),
        Priced::Cut { assignment, .. } => Ok(Sought::Found(assignment)),
        Priced::Spent { learned: _ } => {
            let goal = goal_of(alloc, wcnf, 1)?;
            Ok(Sought::Spent(goal, steps))
        }
    }
}

/// Looks for a value of at least 1, and then for greater ones as long as they aren't refuted.
pub(crate) fn seek_best(alloc: Global, wcnf: &Wcnf, conflicts: u64) -> Result<Sought, NoMemory>
    requires soft { IsSoftWithin wcnf.now }
    requires sizes { IsNarrow wcnf.now }
    requires few { conflicts ≤ MOST_CONFLICTS }
    ensures sought { IfOk result (IsSought wcnf.now (pos 1) conflicts) }
    ensures printed { IfOk result (IsPrintedSought conflicts) }
{
    let mut log = HeldLog::new(alloc);
    match best(alloc, wcnf, conflicts, &mut log) {
        Ok(priced) => {
            // Called for its clauses: each of the form's variables is one that a literal may have.
            let _variables = wcnf.hard.variables();
            let steps = log.take_steps();
            sought_of(alloc, wcnf, priced, steps, conflicts)
        }
        Err(SearchError::NoMemory) => Err(NoMemory),
        Err(SearchError::LogFault) => unreachable!(),
    }
}

// What a search for a goal found.
fn sought_by(outcome: Outcome, goal: Constraint, steps: Steps) -> Sought
    ensures sought { TellsEnded outcome goal steps result }
    ensures printed { TellsPrinted goal steps result }
{
    match outcome {
        Outcome::Found(assignment) => Sought::Found(assignment),
        Outcome::Refuted { last: _ } => Sought::Refuted(steps),
        Outcome::Spent { learned: _ } => Sought::Spent(goal, steps),
    }
}

/// Looks for a value of at least so much.
pub(crate) fn seek(
    alloc: Global,
    wcnf: &Wcnf,
    least: i128,
    conflicts: u64,
) -> Result<Sought, NoMemory>
    requires soft { IsSoftWithin wcnf.now }
    requires sizes { IsNarrow wcnf.now }
    requires least { unsigned_abs least ≤ 2 * MOST_TOTAL }
    requires few { conflicts ≤ MOST_CONFLICTS }
    ensures sought { IfOk result (IsSought wcnf.now least conflicts) }
    ensures printed { IfOk result (IsPrintedSought conflicts) }
{
    let goal = goal_of(alloc, wcnf, least)?;
    let mut log = HeldLog::new(alloc);
    match search(alloc, &wcnf.hard, &goal, conflicts, &mut log) {
        Ok(outcome) => {
            // Called for its clauses: each of the form's variables is one that a literal may have.
            let _variables = wcnf.hard.variables();
            let steps = log.take_steps();
            Ok(sought_by(outcome, goal, steps))
        }
        Err(SearchError::NoMemory) => Err(NoMemory),
        Err(SearchError::LogFault) => unreachable!(),
    }
}
