//! Propagation and decisions.
ghost use Rattle.std.specs.Prelude.{◌≡◌};
ghost use Rattle.ps_pb.specs.Steps.{known_of};
ghost use Rattle.ps_learn.specs.Trails.{values, AreReasons};
ghost use Rattle.ps_learn.specs.Rest.{IsAdvanced, IsLonger};
ghost use Rattle.ps_learn.specs.Resting.{AreRested, AreOfAtoms};
ghost use Rattle.ps_sat.specs.Keeping.{IsInStep, IsOver, HasSeen};

use crate::kept::Kept;
use crate::order::Order;
use ps_clause::ClauseForm;
use ps_learn::Trail;

/// Propagates, and decides on variables of atoms in this order, until a constraint is violated,
/// which is named, or all is set.
#[tactic(auto, using(ps_learn::proofs::Advancing::longer_none))]
pub(crate) fn advance(
    base: &ClauseForm,
    kept: &mut Kept,
    order: &Order,
    trail: &mut Trail,
) -> Option<u64>
    requires variables { trail.old.variables ≡ base.now.variables }
    requires kept { kept.old.variables ≡ base.now.variables }
    requires in_step { IsInStep kept.old trail.old }
    requires reasons { AreReasons trail.old.variables (known_of kept.old.known) trail.old.entries }
    requires rested { AreRested base.now.variables (known_of kept.old.known) trail.old.entries }
    requires atoms { AreOfAtoms base.now trail.old.entries }
    ensures over { IsOver kept.old kept.new }
    ensures seen { HasSeen result kept.new trail.new }
    ensures variables { trail.new.variables ≡ trail.old.variables }
    ensures longer { IsLonger trail.old.entries trail.new.entries }
    ensures reasons { AreReasons trail.new.variables (known_of kept.old.known) trail.new.entries }
    ensures rested { AreRested base.now.variables (known_of kept.old.known) trail.new.entries }
    ensures atoms { AreOfAtoms base.now trail.new.entries }
    ensures ended { IsAdvanced base.now (known_of kept.old.known) (values trail.new) result }
{
    'on: loop {
        if let Some(id) = kept.propagate(trail) {
            return Some(id);
        }
        match order.choose(base, trail.values()) {
            None => return None,
            Some(lit) => trail.decide(lit),
        }
    }
}
