//! A way to smaller numbers.

use crate::gathering::Gathering;
use crate::vertex::Vertex;
use crate::walk::Walk;
use ps_float_pricing::Relaxed;
use ps_io::NoMemory;
use ps_problem::Problem;

/// A way to a vertex of the same face whose numbers are smaller.
#[derive(Drop)]
pub(crate) enum Descent {
    /// Worlds gather around few of them.
    Gathering(Gathering),
    /// A walk.
    Walk(Walk),
}

impl Descent {
    /// Goes on by a part, and answers whether the values are small then.
    pub(crate) fn go_on(&mut self, problem: &Problem, relaxed: &Relaxed) -> Result<bool, NoMemory> {
        match self {
            Descent::Gathering(gathering) => gathering.go_on(problem, relaxed),
            Descent::Walk(walk) => walk.go_on(problem, relaxed),
        }
    }

    /// Whether it is at its end.
    pub(crate) fn is_over(&self) -> bool {
        match self {
            Descent::Gathering(gathering) => gathering.is_over(),
            Descent::Walk(walk) => walk.is_over(),
        }
    }

    /// The vertex that it is at.
    pub(crate) fn vertex(&self) -> &Vertex {
        match self {
            Descent::Gathering(gathering) => gathering.vertex(),
            Descent::Walk(walk) => walk.vertex(),
        }
    }
}
