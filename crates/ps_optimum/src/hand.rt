//! The best assignment so far.
ghost use Rattle.std.specs.Prelude.{◌≡◌, ◌≤◌, length, take, Some, IfOk};
ghost use Rattle.ps_max_answer.specs.declared.answer.MaxAnswer.TheVariants.{Optimum, Open};
ghost use Rattle.ps_optimum.specs.Searches.{GivesHand};
ghost use Rattle.ps_pb.specs.Assignments.{values_of};
ghost use Rattle.ps_wcnf.specs.Laws.{IsWeighed};
ghost use Rattle.ps_wcnf.specs.Limits.{IsText};

use ps_formula::World;
use ps_io::NoMemory;
use ps_max_answer::MaxAnswer;
use ps_pb::{Assignment, Constraint, Steps};
use ps_wcnf::{WcnfText, weigh};
use std::alloc::Global;

/// An allowed assignment, what it costs, and the weight that it satisfies.
#[derive(Drop)]
pub(crate) struct Hand {
    pub(crate) assignment: World,
    pub(crate) cost: i128,
    pub(crate) gain: i128,
}

impl Hand {
    /// The answer that none costs less.
    pub(crate) fn into_optimum(self, steps: Steps) -> MaxAnswer
        ensures { result ≡ Optimum self.cost self.assignment steps }
    {
        MaxAnswer::Optimum {
            cost: self.cost,
            assignment: self.assignment,
            steps,
        }
    }

    /// The answer that the search for a better one was spent.
    pub(crate) fn into_open(self, limit: u64, goal: Constraint, steps: Steps) -> MaxAnswer
        ensures { result ≡ Open limit goal steps (Some (self.cost, self.assignment)) }
    {
        MaxAnswer::Open {
            limit,
            goal,
            steps,
            best: Some((self.cost, self.assignment)),
        }
    }
}

// The values of the first variables; false for one that has none.
fn first_values(alloc: Global, found: &Assignment, count: u32) -> Result<World, NoMemory>
    requires { count ≤ length found.now }
    ensures { IfOk result (λ w. w ≡ take count (values_of found.now)) }
{
    let mut world = World::new(alloc);
    for i in 0..count {
        world.push(found.value(i + 1).unwrap_or(false))?;
    }
    Ok(world)
}

/// What an assignment of the form's variables gives the text's own. Where it has a value, they
/// satisfy at least that weight but 1.
pub(crate) fn hand_of(alloc: Global, text: &WcnfText, found: &Assignment) -> Result<Hand, NoMemory>
    requires text { IsText text.now }
    requires weighed { IsWeighed text.now }
    requires long { text.now.variables ≤ length found.now }
    ensures { IfOk result (GivesHand text.now found.now) }
{
    let assignment = first_values(alloc, found, text.variables)?;
    let (cost, gain) = weigh(assignment.as_slice(), text.soft.as_slice());
    Ok(Hand {
        assignment,
        cost,
        gain,
    })
}
