//! What a clause does to an assignment.
ghost use Rattle.std.specs.Prelude.{◌≡◌, filter};
ghost use Rattle.ps_pb.specs.Assignments.{AreDifferent};
ghost use Rattle.ps_pb.specs.Constraints.{is_open};
ghost use Rattle.ps_pb.specs.Weights.{clause_of};
ghost use Rattle.ps_pb.specs.Effects.{Propagates};
ghost use Rattle.ps_pbcheck.specs.Followed.{Leaves};

use ps_pb::{Assignment, Effect, Lit};

/// Which literals of a clause aren't false.
#[derive(Clone, Copy)]
enum Left {
    /// None.
    Nothing,
    /// This one alone.
    One(Lit),
    /// Two or more.
    Several,
}

fn is_open(a: &Assignment, lit: Lit) -> bool
    ensures { result ≡ is_open a.now lit }
{
    a.value_of(lit) != Some(false)
}

fn left_of(lits: &[Lit], a: &Assignment) -> Left
    ensures { Leaves (filter (is_open a.now) lits.now) result }
{
    let mut one = None;
    for lit in lits {
        if is_open(a, *lit) {
            if one.is_some() {
                return Left::Several;
            }
            one = Some(*lit);
        }
    }
    match one {
        Some(lit) => Left::One(lit),
        None => Left::Nothing,
    }
}

/// Sets the one literal that isn't false, if it is unset.
pub(crate) fn propagate_clause(lits: &[Lit], a: &mut Assignment) -> Effect
    requires { AreDifferent lits.now }
    ensures { Propagates (clause_of lits.now) a.old a.new result }
{
    match left_of(lits, a) {
        Left::Nothing => Effect::Violated,
        Left::Several => Effect::Idle,
        Left::One(lit) => {
            if a.value_of(lit).is_some() {
                return Effect::Idle;
            }
            a.set(lit);
            Effect::Forced
        }
    }
}
