//! A vertex with a program of its own.

use crate::about::About;
use crate::basis_system::BasisSystem;
use crate::engine::kinds_of;
use ps_float_pricing::{Member, Relaxed, WorldPool};
use ps_io::NoMemory;
use ps_simplex_float::{Column, MOST_ROWS, Phase, Simplex};
use std::alloc::Global;

/// A vertex of the engine's program, with a program and worlds of its own: those that are tried on the way
/// to smaller numbers don't join the engine's.
#[derive(Drop)]
pub(crate) struct Vertex {
    alloc: Global,
    pub(crate) simplex: Simplex,
    pub(crate) pool: WorldPool,
    /// The evidence of row 0.
    pub(crate) given: Option<u32>,
}

// An equal world with the truth of its nodes.
fn copy_of(alloc: Global, member: &Member) -> Result<Member, NoMemory> {
    Ok(Member {
        world: member.world.copy(alloc)?,
        truth: member.truth.to_vec(alloc)?,
    })
}

impl Vertex {
    /// The vertex at the basis of a program; none where it can't start there.
    pub(crate) fn new(
        alloc: Global,
        about: About<'_>,
        simplex: &Simplex,
    ) -> Result<Option<Vertex>, NoMemory> {
        let kinds = kinds_of(alloc, about.relaxed)?;
        if kinds.is_empty() || kinds.len() > MOST_ROWS {
            return Ok(None);
        }
        let mut vertex = Vertex {
            alloc,
            simplex: Simplex::new(alloc, &kinds, &[1.0])?,
            pool: WorldPool::new(alloc),
            given: about.given,
        };
        vertex.simplex.set_phase(Phase::Two);
        let mut columns = Vec::new(alloc);
        for column in simplex.basis() {
            columns.push(vertex.own_column(*column, simplex, about.pool)?)?;
        }
        let is_started = vertex.simplex.start_at(&columns);
        Ok(if is_started { Some(vertex) } else { None })
    }

    // The column for one of another program, whose worlds are in a pool.
    fn own_column(
        &mut self,
        column: Column,
        simplex: &Simplex,
        pool: &WorldPool,
    ) -> Result<Column, NoMemory> {
        let Column::Added(place) = column else {
            return Ok(column);
        };
        let number = self.pool.members().len();
        if let Some(member) = pool.members().get(place) {
            self.pool.add(copy_of(self.alloc, member)?)?;
            self.simplex.add_column(simplex.entries(place), 0.0)?;
        }
        Ok(Column::Added(number))
    }

    /// An equal world to that of an added column.
    pub(crate) fn member(&self, number: usize) -> Result<Option<Member>, NoMemory> {
        match self.pool.members().get(number) {
            Some(member) => Ok(Some(copy_of(self.alloc, member)?)),
            None => Ok(None),
        }
    }

    /// Adds the column of a world that isn't there, and answers its number.
    pub(crate) fn add(
        &mut self,
        relaxed: &Relaxed,
        member: Member,
        cost: f64,
    ) -> Result<usize, NoMemory> {
        let number = self.pool.members().len();
        let column = relaxed.column(self.alloc, self.given, &member.truth)?;
        self.simplex.add_column(&column, cost)?;
        self.pool.add(member)?;
        Ok(number)
    }

    /// Whether its values fit into small whole numbers.
    pub(crate) fn is_small(&self, relaxed: &Relaxed) -> Result<bool, NoMemory> {
        let basis = self.simplex.basis();
        match BasisSystem::new(self.alloc, relaxed, &self.pool, self.given, basis)? {
            Some(system) => Ok(system.values()?.is_some()),
            None => Ok(false),
        }
    }
}
