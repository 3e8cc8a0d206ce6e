//! What a pricing finds.
use ps_answer::Dual;
use ps_formula::World;
use ps_pb::{Constraint, Steps};

/// What a pricing finds.
#[derive(Drop)]
pub enum Pricing {
    /// A world in which the dual's combination is at least 1. It is greater in no world, unless a
    /// search for a greater one was spent.
    Found(World),
    /// There is no such world; the dual has the steps that refute it.
    Refuted(Dual),
    /// The search for such a world was spent: its goal, and what it learned.
    Spent { goal: Constraint, steps: Steps },
}
