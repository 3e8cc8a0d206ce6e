//! Local search from worlds.

use crate::float_goal::FloatGoal;
use crate::limits::{MORE_STEPS, SEED};
use crate::pool::Member;
use crate::relaxed::Relaxed;
use ps_climb::{Goal as ClimbGoal, LocalSearch};
use ps_formula::World;
use ps_io::NoMemory;
use ps_problem::Problem;
use std::alloc::Global;

/// Local search from worlds of a problem.
#[derive(Drop)]
pub(crate) struct Climbing {
    alloc: Global,
    local: LocalSearch,
    steps: u32,
}

// What a local search looks for.
fn goal_of<'g>(gain: &'g FloatGoal, above: f64) -> ClimbGoal<'g> {
    ClimbGoal {
        coefficients: gain.weights(),
        constant: gain.base(),
        threshold: above,
    }
}

// The world in which no atom is true.
fn false_world(alloc: Global, atoms: u16) -> Result<World, NoMemory> {
    let mut world = World::new(alloc);
    for _ in 0..atoms {
        world.push(false)?;
    }
    Ok(world)
}

impl Climbing {
    /// For the worlds of a problem that meet its certainties.
    pub(crate) fn new(
        alloc: Global,
        problem: &Problem,
        relaxed: &Relaxed,
    ) -> Result<Climbing, NoMemory> {
        let demands = relaxed.demands(alloc)?;
        let atoms = problem.atoms();
        Ok(Climbing {
            alloc,
            local: LocalSearch::new(alloc, problem.formulas(), atoms as usize, &demands, SEED)?,
            steps: MORE_STEPS.saturating_add(2 * atoms as u32),
        })
    }

    /// Adds the world that a local search from this one leads to, where its gain is above so much.
    pub(crate) fn climb(
        &mut self,
        problem: &Problem,
        gain: &FloatGoal,
        above: f64,
        start: &World,
        found: &mut Vec<Member>,
    ) -> Result<(), NoMemory> {
        let world = self.local.search(goal_of(gain, above), start, self.steps)?;
        self.add(problem, world, found)
    }

    /// Adds the world of the greatest gain, where that is above so much: each world of few atoms is
    /// looked at.
    pub(crate) fn best(
        &mut self,
        problem: &Problem,
        gain: &FloatGoal,
        above: f64,
        found: &mut Vec<Member>,
    ) -> Result<(), NoMemory> {
        let start = false_world(self.alloc, problem.atoms())?;
        let world = self.local.best(goal_of(gain, above), &start)?;
        self.add(problem, world, found)
    }

    // Adds a world, where there is one.
    fn add(
        &self,
        problem: &Problem,
        world: Option<World>,
        found: &mut Vec<Member>,
    ) -> Result<(), NoMemory> {
        let Some(world) = world else {
            return Ok(());
        };
        if let Some(member) = Member::new(self.alloc, problem, world)? {
            found.push(member)?;
        }
        Ok(())
    }

    /// The same from several worlds.
    pub(crate) fn climb_all(
        &mut self,
        problem: &Problem,
        gain: &FloatGoal,
        above: f64,
        starts: &[World],
        found: &mut Vec<Member>,
    ) -> Result<(), NoMemory> {
        for start in starts {
            self.climb(problem, gain, above, start, found)?;
        }
        Ok(())
    }
}
