//! What constraints show that aren't watched.
ghost use Rattle.std.specs.Prelude.{◌≡◌, Some, length, All};
ghost use Rattle.ps_pb.specs.Constraints.{slack};
ghost use Rattle.ps_pb.specs.Weights.{IsWithin};
ghost use Rattle.ps_pb.specs.Steps.{known_of, constraint_at};
ghost use Rattle.ps_learn.specs.Trails.{values};
ghost use Rattle.ps_sat.specs.Scans.{FirstForced, ScansOne, ScansAt, ScansThese, ScansAll};

use crate::sight::Sight;
use ps_io::List;
use ps_pb::{Assignment, Constraint, Lit, constraint_at, is_forced, slack};

/// What a scan finds.
#[derive(Drop)]
pub(crate) enum Scan {
    /// The constraint of this id is violated.
    Violated(u64),
    /// The constraint of this id forces the literal.
    Forced(Lit, u64),
    /// No constraint is violated or forces a literal.
    Idle,
}

/// What one constraint shows.
#[derive(Drop)]
pub(crate) enum State {
    /// It is violated.
    Violated,
    /// It forces the literal.
    Forced(Lit),
    /// It is neither violated nor forces a literal.
    Idle,
}

// The first literal that a constraint of this slack forces.
fn first_forced(c: &Constraint, a: &Assignment, room: &i128) -> Option<Lit>
    requires { room.now ≡ slack c.now a.now }
    ensures { FirstForced c.now a.now result }
{
    for term in c.terms().as_slice() {
        if is_forced(a, term, room) {
            let lit = term.0;
            // Called for its clauses: a literal is of a variable, numbered from 1 on.
            let _variable = lit.variable();
            return Some(lit);
        }
    }
    None
}

fn show(c: &Constraint, a: &Assignment) -> State
    ensures { ScansOne c.now a.now result }
{
    let room = slack(c, a);
    if room < 0 {
        return State::Violated;
    }
    match first_forced(c, a, &room) {
        Some(lit) => State::Forced(lit),
        None => State::Idle,
    }
}

// What the constraint of an id shows.
fn show_at(known: &List<Constraint>, id: u64, a: &Assignment) -> Scan
    requires inside { All (IsWithin (length a.now)) known.now }
    ensures { ScansAt (known_of known.now) a.now id result }
{
    match constraint_at(known, id) {
        None => Scan::Idle,
        Some(c) => match show(c, a) {
            State::Violated => Scan::Violated(id),
            State::Forced(lit) => Scan::Forced(lit, id),
            State::Idle => Scan::Idle,
        },
    }
}

/// The first of these constraints that is violated or forces a literal.
pub(crate) fn scan_these(known: &List<Constraint>, ids: &[u64], a: &Assignment) -> Scan
    requires inside { All (IsWithin (length a.now)) known.now }
    ensures { ScansThese (known_of known.now) ids.now a.now result }
{
    for i in 0..ids.len() {
        match show_at(known, ids[i], a) {
            Scan::Idle => {}
            found => return found,
        }
    }
    Scan::Idle
}

/// The first of these constraints that is violated or forces a literal; the goal, which has an id
/// of its own, comes last.
pub(crate) fn scan_all(
    known: &List<Constraint>,
    ids: &[u64],
    sight: &Sight,
    goal: u64,
    a: &Assignment,
) -> Scan
    requires inside { All (IsWithin (length a.now)) known.now }
    requires seen { a.now ≡ values sight.now.seen }
    requires goal { constraint_at (known_of known.now) goal ≡ Some sight.now.goal }
    ensures { ScansAll (known_of known.now) ids.now goal a.now result }
{
    match scan_these(known, ids, a) {
        Scan::Idle => match sight.state() {
            State::Violated => Scan::Violated(goal),
            State::Forced(lit) => Scan::Forced(lit, goal),
            State::Idle => Scan::Idle,
        },
        found => found,
    }
}
