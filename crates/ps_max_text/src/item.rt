//! What a line of an answer's text says.
use ps_formula::World;
use ps_pb::{Constraint, Step};

/// What a line says.
#[derive(Drop)]
pub enum MaxItem {
    /// The first line, with the version.
    Head,
    /// An optimum of this cost; its assignment follows.
    Optimum { cost: i128 },
    /// No assignment is allowed.
    Unsatisfiable,
    /// Open: a search used up its conflicts. Its goal and so many steps follow.
    OpenConflicts { limit: u64, count: u64 },
    /// The values of the variables.
    Values { values: World },
    /// So many steps follow.
    LogHead { count: u64 },
    /// A step of a refutation, or of a spent search.
    StepLine { step: Step },
    /// The goal of a spent search.
    GoalLine { goal: Constraint },
    /// No assignment was found.
    NoBest,
    /// The cost of the best assignment so far, which follows.
    Best { cost: i128 },
    /// The last line.
    End,
}
