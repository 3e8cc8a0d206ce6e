//! Worlds with the truth of their nodes.

use ps_formula::{World, eval};
use ps_io::NoMemory;
use ps_problem::Problem;
use std::alloc::Global;
use std::collections::HashMap;

/// A world with the truth of its nodes.
#[derive(Drop)]
pub struct Member {
    /// The world.
    pub world: World,
    /// The truth of each node.
    pub truth: Vec<bool>,
}

impl Member {
    /// A world of a problem, with the truth of its nodes; none where the world isn't one of its.
    pub fn new(alloc: Global, problem: &Problem, world: World) -> Result<Option<Member>, NoMemory> {
        if world.len() != problem.atoms() as usize {
            return Ok(None);
        }
        let truth = eval(alloc, problem.formulas(), &world)?;
        Ok(Some(Member { world, truth }))
    }
}

/// Different worlds, in the order in which they came.
#[derive(Drop)]
pub struct WorldPool {
    alloc: Global,
    members: Vec<Member>,
    /// The place of each.
    places: HashMap<World, usize>,
}

impl WorldPool {
    /// The pool of no worlds.
    pub fn new(alloc: Global) -> WorldPool {
        WorldPool {
            alloc,
            members: Vec::new(alloc),
            places: HashMap::new(alloc),
        }
    }

    /// The worlds, taken out.
    pub fn into_members(self) -> Vec<Member> {
        self.members
    }

    /// The worlds.
    pub fn members(&self) -> &[Member] {
        &self.members
    }

    /// The truth of the nodes in the world at a place, from 0; of no nodes where there is none.
    pub fn truth(&self, place: usize) -> &[bool] {
        match self.members.get(place) {
            Some(member) => &member.truth,
            None => &[],
        }
    }

    /// The place of a world.
    pub fn place(&self, world: &World) -> Option<usize> {
        self.places.get(world).copied()
    }

    /// Adds a world that isn't there.
    pub fn add(&mut self, member: Member) -> Result<(), NoMemory> {
        let place = self.members.len();
        self.places.insert(member.world.copy(self.alloc)?, place)?;
        self.members.push(member)?;
        Ok(())
    }
}
