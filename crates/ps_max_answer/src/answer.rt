//! Answers.
use ps_formula::World;
use ps_pb::{Constraint, Steps};

/// What is answered of hard and soft clauses.
#[derive(Drop)]
pub enum MaxAnswer {
    /// The assignment is allowed and has this cost, and none costs less: the steps refute that a
    /// value is greater.
    Optimum {
        cost: i128,
        assignment: World,
        steps: Steps,
    },
    /// No assignment is allowed: the steps refute that a value is at least 1.
    Unsatisfiable {
        steps: Steps,
    },
    /// A search for this goal was spent at its limit, with the best assignment so far and its cost.
    Open {
        limit: u64,
        goal: Constraint,
        steps: Steps,
        best: Option<(i128, World)>,
    },
}
