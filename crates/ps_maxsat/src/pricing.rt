//! The greatest value.
ghost use Rattle.std.specs.Prelude.{◌≤◌, ◌*◌, ◌<ℤ◌, ◌≤ℤ◌, ◌≡◌, ◌+ℤ◌, ◌-ℤ◌, pos, unsigned_abs};
ghost use Rattle.std.specs.Prelude.{IsTrue, IfOk, OnOk, IsErrOf};
ghost use Rattle.ps_log.specs.declared.limits.TheConstants.{MOST_CONFLICTS};
ghost use Rattle.ps_sat.specs.Errors.{CountsSearchFault};
ghost use Rattle.ps_sat.specs.Searches.{IsOutcome};
ghost use Rattle.ps_maxsat.specs.Limits.{IsNarrow, IsSoftWithin};
ghost use Rattle.ps_maxsat.specs.declared.limits.TheConstants.{MOST_TOTAL};
ghost use Rattle.ps_maxsat.specs.Values.{goal_of, IsPriced, IsGoalLogged, IsBestLogged};

use crate::problem::{Wcnf, most_value, value};
use crate::spacing::{greatest_in_steps, unit_of};
use ps_log::ProofSink;
use ps_pb::{Assignment, from_weights};
use ps_sat::{Outcome, SearchError, search_from};
use std::alloc::Global;

/// What the greatest value is.
#[derive(Drop)]
pub enum Priced {
    /// No assignment that meets the clauses has value 1 or more. The last step of the refutation is
    /// a contradiction, of this id.
    NoneAbove {
        last: u64,
    },
    /// This assignment has this value, which is at least 1, and none has a greater one. So many
    /// searches were made.
    Best {
        assignment: Assignment,
        value: i128,
        searches: u32,
    },
    /// This assignment has this value, which is at least 1. The last of so many searches was spent:
    /// that for a value of at least the goal, which lies halfway between this value and a bound that
    /// no value is above, and not above the base plus the positive weights.
    Cut {
        assignment: Assignment,
        value: i128,
        goal: i128,
        searches: u32,
    },
    /// The search for a value of at least 1 was spent, when it had learned so many clauses.
    Spent {
        learned: u64,
    },
}

// A search for a value of at least so much.
fn search_above<S: ProofSink>(
    alloc: Global,
    wcnf: &Wcnf,
    first: &Assignment,
    least: i128,
    conflicts: u64,
    log: &mut S,
) -> Result<Outcome, SearchError>
    requires whole { IsTrue (S.is_whole log.old) }
    requires soft { IsSoftWithin wcnf.now }
    requires sizes { IsNarrow wcnf.now }
    requires least { unsigned_abs least ≤ 2 * MOST_TOTAL }
    requires few { conflicts ≤ MOST_CONFLICTS }
    ensures outcome { IfOk result (IsOutcome wcnf.now.hard (goal_of wcnf.now least) conflicts) }
    ensures logged { IsGoalLogged wcnf.now least conflicts (S.told log.old)
        (S.told log.new) result }
    ensures whole { OnOk result (IsTrue (S.is_whole log.new)) }
    ensures telling { OnOk result (IsTrue (S.told log.old).tells → IsTrue (S.told log.new).tells) }
    ensures counted { CountsSearchFault result (S.faults log.old) (S.faults log.new) }
    ensures no_memory { IsErrOf result SearchError.NoMemory → IsTrue (S.is_whole log.new) }
    ensures same_kind { S.takes_memory log.new ≡ S.takes_memory log.old }
    ensures same_references { S.names log.new ≡ S.names log.old }
{
    let goal = from_weights(alloc, wcnf.soft.as_slice(), least - wcnf.base)?;
    search_from(alloc, &wcnf.hard, &goal, first, conflicts, log)
}

// Half of a distance, rounded down.
fn half(distance: i128) -> i128
    requires { pos 0 ≤ℤ distance }
    ensures low { (result +ℤ result) ≤ℤ distance }
    ensures high { distance ≤ℤ ((result +ℤ result) +ℤ pos 1) }
    ensures some { pos 0 ≤ℤ result }
{
    distance / 2
}

// The goal that halves the way from what was found to what nothing is above.
fn middle(found: i128, bound: i128) -> i128
    requires found_size { unsigned_abs found ≤ MOST_TOTAL }
    requires bound_size { unsigned_abs bound ≤ MOST_TOTAL }
    requires below { found <ℤ bound }
    ensures above { found <ℤ result }
    ensures within { result ≤ℤ bound }
    ensures half_up { ((bound -ℤ result) +ℤ (bound -ℤ result)) <ℤ (bound -ℤ found) }
    ensures half_down { ((result -ℤ found) +ℤ (result -ℤ found)) ≤ℤ ((bound -ℤ found) +ℤ pos 2) }
{
    bound - half(bound - found - 1)
}

/// Looks for the greatest value of an assignment that meets the clauses, if it is at least 1. Each
/// search is for a value of at least a goal, the first for 1. Each other goal lies halfway between
/// a value that was found and a bound that no value is above. Values lie multiples of the weights'
/// greatest common divisor apart, so a bound is lowered to the next number that may be one. At least
/// 1 search is made, and at most 124.
///
/// The log holds the refutation after `NoneAbove`, the search that was spent after `Cut` and
/// `Spent`, and the last search after `Best`. After an error it is as it was, or holds the goal of
/// a search and lawful steps. `LogFault`, and no other answer, raises the log's count of faults, by
/// one.
pub fn best<S: ProofSink>(
    alloc: Global,
    wcnf: &Wcnf,
    conflicts: u64,
    log: &mut S,
) -> Result<Priced, SearchError>
    requires whole { IsTrue (S.is_whole log.old) }
    requires soft { IsSoftWithin wcnf.now }
    requires sizes { IsNarrow wcnf.now }
    requires few { conflicts ≤ MOST_CONFLICTS }
    ensures priced { IfOk result (IsPriced wcnf.now conflicts) }
    ensures logged { IsBestLogged wcnf.now conflicts (S.told log.old) (S.told log.new) result }
    ensures whole { OnOk result (IsTrue (S.is_whole log.new)) }
    ensures counted { CountsSearchFault result (S.faults log.old) (S.faults log.new) }
    ensures no_memory { IsErrOf result SearchError.NoMemory → IsTrue (S.is_whole log.new) }
    ensures same_kind { S.takes_memory log.new ≡ S.takes_memory log.old }
    ensures same_references { S.names log.new ≡ S.names log.old }
{
    let first = Assignment::new(alloc, 0)?;
    best_from(alloc, wcnf, &first, conflicts, log)
}

/// As `best`. A variable that no soft literal has is first tried with the value that the first
/// assignment gives it, and false where it gives none.
pub fn best_from<S: ProofSink>(
    alloc: Global,
    wcnf: &Wcnf,
    first: &Assignment,
    conflicts: u64,
    log: &mut S,
) -> Result<Priced, SearchError>
    requires whole { IsTrue (S.is_whole log.old) }
    requires soft { IsSoftWithin wcnf.now }
    requires sizes { IsNarrow wcnf.now }
    requires few { conflicts ≤ MOST_CONFLICTS }
    ensures priced { IfOk result (IsPriced wcnf.now conflicts) }
    ensures logged { IsBestLogged wcnf.now conflicts (S.told log.old) (S.told log.new) result }
    ensures whole { OnOk result (IsTrue (S.is_whole log.new)) }
    ensures counted { CountsSearchFault result (S.faults log.old) (S.faults log.new) }
    ensures no_memory { IsErrOf result SearchError.NoMemory → IsTrue (S.is_whole log.new) }
    ensures same_kind { S.takes_memory log.new ≡ S.takes_memory log.old }
    ensures same_references { S.names log.new ≡ S.names log.old }
{
    let (mut assignment, mut found) = match search_above(alloc, wcnf, first, 1, conflicts, log)? {
        Outcome::Refuted { last } => return Ok(Priced::NoneAbove { last }),
        Outcome::Spent { learned } => return Ok(Priced::Spent { learned }),
        Outcome::Found(assignment) => {
            let found = value(wcnf, &assignment);
            (assignment, found)
        }
    };
    let unit = unit_of(wcnf.soft.as_slice());
    let mut bound = greatest_in_steps(found, unit, most_value(wcnf));
    let mut searches = 1;
    while found < bound {
        let goal = middle(found, bound);
        searches += 1;
        match search_above(alloc, wcnf, first, goal, conflicts, log)? {
            Outcome::Refuted { last: _ } => bound = greatest_in_steps(found, unit, goal - 1),
            Outcome::Found(better) => {
                found = value(wcnf, &better);
                assignment = better;
            }
            Outcome::Spent { learned: _ } => {
                return Ok(Priced::Cut {
                    assignment,
                    value: found,
                    goal,
                    searches,
                });
            }
        }
    }
    Ok(Priced::Best {
        assignment,
        value: found,
        searches,
    })
}
