//! Smaller numbers at another vertex of the same face.

use crate::descent::Descent;
use crate::engine::Engine;
use crate::gathering::Gathering;
use crate::limits::{GATHERING, MOST_DESCENTS, SEED};
use crate::vertex::Vertex;
use crate::walk::Walk;
use ps_float_pricing::{Aim, FloatGoal};
use ps_io::NoMemory;
use ps_problem::Problem;
use ps_simplex_float::Column;

impl Engine {
    /// Goes on to a vertex of the same face whose numbers are smaller, by a part of a way. Where small
    /// numbers are met, the engine goes over to that vertex, with the worlds of its basis. Where a way is
    /// over, another one is next: a walk, then worlds gather, and then walks again, each by other numbers
    /// drawn. Answers whether there is more to try.
    pub(crate) fn shrink(&mut self, problem: &Problem, aim: Aim) -> Result<bool, NoMemory> {
        let going = match self.descent.take() {
            Some(descent) => Some(descent),
            None => self.next_descent(problem, aim)?,
        };
        let Some(mut descent) = going else {
            return Ok(false);
        };
        if descent.go_on(problem, &self.relaxed)? {
            return self.go_over_to(descent.vertex());
        }
        self.descent = if descent.is_over() {
            self.next_descent(problem, aim)?
        } else {
            Some(descent)
        };
        Ok(self.descent.is_some())
    }

    // The next way from the present basis; none after some.
    fn next_descent(&mut self, problem: &Problem, aim: Aim) -> Result<Option<Descent>, NoMemory> {
        if self.descents >= MOST_DESCENTS {
            return Ok(None);
        }
        let number = self.descents;
        self.descents = number.saturating_add(1);
        if number == GATHERING {
            let gathering = self.new_gathering(problem, aim)?;
            return Ok(gathering.map(Descent::Gathering));
        }
        let walk = self.new_walk(aim, SEED.wrapping_add(number as u64))?;
        Ok(walk.map(Descent::Walk))
    }

    // What worlds gain at the present basis: 0 in those of its face, and below 0 in all others.
    fn gain_here(&mut self, aim: Aim) -> Result<FloatGoal, NoMemory> {
        let mut gain = FloatGoal::new(self.alloc, self.relaxed.nodes())?;
        if aim != Aim::Consistent {
            self.simplex.find_duals();
            self.relaxed
                .write_gain(aim, self.simplex.duals(), &mut gain);
        }
        Ok(gain)
    }

    // A gathering of the worlds of the present basis.
    fn new_gathering(
        &mut self,
        problem: &Problem,
        aim: Aim,
    ) -> Result<Option<Gathering>, NoMemory> {
        let gain = self.gain_here(aim)?;
        let level = self.tolerances.level;
        let about = self.about(aim);
        Gathering::new(self.alloc, problem, about, &self.simplex, gain, level)
    }

    // A walk from the present basis.
    fn new_walk(&mut self, aim: Aim, seed: u64) -> Result<Option<Walk>, NoMemory> {
        let gain = self.gain_here(aim)?;
        let level = self.tolerances.level;
        Walk::new(
            self.alloc,
            self.about(aim),
            &self.simplex,
            gain,
            level,
            seed,
        )
    }

    // Goes over to a vertex.
    fn go_over_to(&mut self, vertex: &Vertex) -> Result<bool, NoMemory> {
        let mut columns = Vec::new(self.alloc);
        for column in vertex.simplex.basis() {
            columns.push(match *column {
                Column::Added(number) => self.column_of(vertex, number)?,
                other => other,
            })?;
        }
        Ok(self.simplex.start_at(&columns))
    }

    // The column of a vertex' world.
    fn column_of(&mut self, vertex: &Vertex, number: usize) -> Result<Column, NoMemory> {
        let Some(member) = vertex.member(number)? else {
            return Ok(Column::Added(usize::MAX));
        };
        if let Some(place) = self.pool.place(&member.world) {
            return Ok(Column::Added(place));
        }
        self.take(member)?;
        Ok(Column::Added(self.pool.members().len().wrapping_sub(1)))
    }
}
