//! The steps of a refutation.
use crate::lit::Lit;
use ps_io::List;
use std::marker::Model;

/// Literals, in order.
pub type Lits = List<Lit>;

/// The ids of constraints, in order.
pub type Hints = List<u64>;

/// Steps, in order.
pub type Steps = List<Step>;

/// A clause under its id, and the ids of the constraints from which it follows, in the order in
/// which they are used.
#[derive(Drop)]
pub struct Step {
    /// The id of the clause.
    pub id: u64,
    /// The literals of the clause.
    pub lits: Lits,
    /// The ids of the constraints from which it follows, in the order in which they are used.
    pub hints: Hints,
}

impl Model for Step {
    ghost use Rattle.ps_pb.specs.Steps.{Step as StepValue};

    ghost Value = { StepValue };

    ghost view = { λ s. record { id = s.id; lits = s.lits; hints = s.hints } };
}
