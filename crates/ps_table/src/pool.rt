//! Worlds in order, without repeats.
ghost use Rattle.std.specs.Prelude.{◌≡◌, ◌↔◌, ◌++◌, ◌∷◌, [], ◌+◌, ◌-◌, ◌^◌, ◌<◌, ℕ, length};
ghost use Rattle.std.specs.Prelude.{option_copied, OnOk, OnErr, IfOk, IsErrOf};
ghost use Rattle.ps_table.specs.Worlds.{AreDifferent, HasNumber, world_of};
ghost use Rattle.ps_table.specs.declared.pool.TheConstants.{MOST_WORLDS};

use indexmap::IndexSet;
use ps_formula::World;
use ps_io::NoMemory;
use std::alloc::Global;
use std::marker::Model;
use thiserror::Error;

/// The most worlds of a pool.
pub const MOST_WORLDS: u32 = u32::MAX;

/// Why a world was not added.
#[derive(Clone, Copy, Debug, PartialEq, Eq, Error)]
pub enum PoolError {
    /// The world is there already, with this number.
    #[error("the world is there already, with number {at}")]
    Present { at: u32 },
    /// There was not enough memory.
    #[error("not enough memory")]
    NoMemory,
}

/// Worlds in the order in which they came, numbered from 1; none stands twice.
#[derive(Drop)]
pub struct Pool {
    worlds: IndexSet<World>,
}

impl Model for Pool {
    ghost use Rattle.std.specs.Prelude.{List, Bool, ◌≤◌, length};
    ghost use Rattle.ps_table.specs.Worlds.{AreDifferent};
    ghost use Rattle.ps_table.specs.declared.pool.TheConstants.{MOST_WORLDS};

    ghost Value = { List (List Bool) };

    ghost view = { λ p. p.worlds.keys };

    ghost invariant = { λ p. AreDifferent p.worlds.keys × (length p.worlds.keys ≤ MOST_WORLDS) };
}

impl Pool {
    /// The pool of no worlds.
    pub fn new(alloc: Global) -> Pool
        ensures { result ≡ [] }
    {
        Pool {
            worlds: IndexSet::new(alloc),
        }
    }

    /// The number of worlds.
    pub fn len(&self) -> u32
        ensures value { result ≡ length self.now }
        ensures once { AreDifferent self.now }
    {
        self.worlds.len() as u32
    }

    /// The world of a number, from 1; `None` where there is none.
    pub fn world(&self, number: u32) -> Option<&World>
        ensures { option_copied result ≡ world_of self.now number }
    {
        if number == 0 {
            return None;
        }
        self.worlds.get_index(number as usize - 1)
    }

    /// Adds a world, and answers its number. A world that is there is refused with the number that
    /// it has; a refused world is dropped.
    pub fn add(&mut self, world: World) -> Result<u32, PoolError>
        requires room { length self.old < MOST_WORLDS }
        ensures number { IfOk result (λ number. number ≡ length self.old + 1) }
        ensures added { OnOk result (self.new ≡ self.old ++ world ∷ []) }
        ensures present { (at : ℕ) → IsErrOf result (PoolError.Present at)
            ↔ HasNumber self.old world at }
        ensures same { OnErr result (self.new ≡ self.old) }
    {
        if let Some(i) = self.worlds.get_index_of(&world) {
            return Err(PoolError::Present { at: i as u32 + 1 });
        }
        match self.worlds.insert_full(world) {
            Ok((i, _)) => Ok(i as u32 + 1),
            Err(_) => Err(PoolError::NoMemory),
        }
    }

    /// Adds a world that isn't there.
    pub fn add_new(&mut self, world: World) -> Result<(), NoMemory>
        requires room { length self.old < MOST_WORLDS }
        requires fresh { (at : ℕ) → HasNumber self.old world at → ⊥ }
        ensures added { OnOk result (self.new ≡ self.old ++ world ∷ []) }
        ensures same { OnErr result (self.new ≡ self.old) }
    {
        match self.add(world) {
            Ok(_) => Ok(()),
            Err(PoolError::NoMemory) => Err(NoMemory),
            Err(PoolError::Present { at: _ }) => unreachable!(),
        }
    }

    /// A pool of equal worlds.
    pub fn copy(&self, alloc: Global) -> Result<Pool, NoMemory>
        ensures { IfOk result (λ pool. pool ≡ self.now) }
    {
        let mut copy = Pool::new(alloc);
        for world in self.worlds.as_slice() {
            copy.add_new(world.copy(alloc)?)?;
        }
        Ok(copy)
    }
}
