//! A walk over the vertices of a face.

use crate::about::About;
use crate::limits::{
    COLD, HOTTEST, LEAST_BLOCKING, MOST_STEPS, SHORTER, SMALLER, SMALLEST_PIVOT, WALK_STEPS,
};
use crate::vertex::Vertex;
use ps_climb::Draw;
use ps_float_pricing::{FloatGoal, Member, Relaxed};
use ps_formula::World;
use ps_io::NoMemory;
use ps_problem::Problem;
use ps_simplex_float::{Column, Simplex};
use std::alloc::{AllocError, Global};
use std::num::nearest_u64_to_f64;

/// A walk over the vertices of a face, by worlds that differ from a basic one in one atom or two. A pivot
/// multiplies the determinant of the basis by its entry. Each that makes it smaller is made, and others the
/// more often the hotter the walk is: annealing, S. Kirkpatrick, C. D. Gelatt and M. P. Vecchi 1983. The
/// worlds that it meets are its own.
#[derive(Drop)]
pub(crate) struct Walk {
    alloc: Global,
    vertex: Vertex,
    /// 0 in the worlds of the face, and below 0 in all others.
    gain: FloatGoal,
    level: f64,
    draw: Draw,
    steps: u32,
    direction: Vec<f64>,
    /// The determinant, as a multiple of that of the first basis, and where whole numbers are tried next.
    size: f64,
    next: f64,
}

// How far a column may be raised before it is blocked.
fn longest_step(values: &[f64], direction: &[f64]) -> f64 {
    let mut most = f64::MAX;
    for (value, entry) in values.iter().zip(direction) {
        if *entry > LEAST_BLOCKING {
            most = most.min(value.max(0.0) / entry);
        }
    }
    most
}

// Whether raising a column leaves the values of artificial columns as they are.
fn spares_artificials(columns: &[Column], direction: &[f64]) -> bool {
    columns.iter().zip(direction).all(|(column, entry)| {
        let is_artificial = matches!(
            *column,
            Column::Artificial(_) | Column::NegativeArtificial(_)
        );
        !is_artificial || entry.abs() <= LEAST_BLOCKING
    })
}

// Of the rows that block a column the one of the smallest entry that a pivot may have.
fn smallest_blocking(values: &[f64], direction: &[f64]) -> Option<(usize, f64)> {
    let most = longest_step(values, direction) + SHORTER;
    let mut best: Option<(usize, f64)> = None;
    for (row, (value, entry)) in values.iter().zip(direction).enumerate() {
        let least = best.map_or(f64::MAX, |(_, least)| least);
        if *entry > SMALLEST_PIVOT && *entry < least && value.max(0.0) / *entry <= most {
            best = Some((row, *entry));
        }
    }
    best
}

// The world with one atom turned.
fn with_atom_turned(alloc: Global, world: &World, atom: usize) -> Result<World, NoMemory> {
    let mut other = World::new(alloc);
    for (place, value) in world.as_slice().iter().enumerate() {
        other.push(*value != (place == atom))?;
    }
    Ok(other)
}

impl Walk {
    /// A walk from the basis of a program, within the face where no world gains.
    pub(crate) fn new(
        alloc: Global,
        about: About<'_>,
        simplex: &Simplex,
        gain: FloatGoal,
        level: f64,
        seed: u64,
    ) -> Result<Option<Walk>, NoMemory> {
        let Some(vertex) = Vertex::new(alloc, about, simplex)? else {
            return Ok(None);
        };
        Ok(Some(Walk {
            alloc,
            direction: vec![in alloc; 0.0; vertex.simplex.basis().len()]?,
            vertex,
            gain,
            level,
            draw: Draw::new(seed),
            steps: 0,
            size: 1.0,
            next: SMALLER,
        }))
    }

    /// The vertex that it is at.
    pub(crate) fn vertex(&self) -> &Vertex {
        &self.vertex
    }

    /// Whether all its steps are made.
    pub(crate) fn is_over(&self) -> bool {
        self.steps >= MOST_STEPS
    }

    /// Goes on by some steps, at most until whole numbers are tried, and answers whether the values are
    /// small then.
    pub(crate) fn go_on(&mut self, problem: &Problem, relaxed: &Relaxed) -> Result<bool, NoMemory> {
        for _ in 0..WALK_STEPS {
            self.step(problem, relaxed)?;
            if self.size <= self.next {
                self.next = self.size * SMALLER;
                return self.vertex.is_small(relaxed);
            }
        }
        Ok(false)
    }

    // By so much an entry may be above 1.
    fn heat(&mut self) -> f64 {
        let left = COLD.saturating_sub(self.steps);
        let hot = HOTTEST * nearest_u64_to_f64(left as u64) / nearest_u64_to_f64(COLD as u64);
        hot * nearest_u64_to_f64(self.draw.next().leading_zeros() as u64)
    }

    // Looks at one world beside a basic one, and where that is on the face and its pivot serves, makes it.
    fn step(&mut self, problem: &Problem, relaxed: &Relaxed) -> Result<(), NoMemory> {
        self.steps = self.steps.saturating_add(1);
        let rows = self.vertex.simplex.basis().len() as u64;
        if rows == 0 || problem.atoms() == 0 {
            return Ok(());
        }
        let row = self.draw.below(rows) as usize;
        let Some(Column::Added(number)) = self.vertex.simplex.basis().get(row).copied() else {
            return Ok(());
        };
        let Some(member) = self.beside(problem, number)? else {
            return Ok(());
        };
        if !relaxed.allows(&member.truth) || self.gain.value(&member.truth) < -self.level {
            return Ok(());
        }
        self.write_direction(relaxed, row, number, &member)?;
        if !spares_artificials(self.vertex.simplex.basis(), &self.direction) {
            return Ok(());
        }
        let Some((leaving, entry)) = smallest_blocking(
            self.vertex.simplex.values(),
            &self.direction,
        ) else {
            return Ok(());
        };
        if entry > 0.99 + self.heat() {
            return Ok(());
        }
        self.pivot(relaxed, leaving, entry, member)
    }

    // A world that differs from that of a column in one atom or two.
    fn beside(&mut self, problem: &Problem, number: usize) -> Result<Option<Member>, NoMemory> {
        let Some(member) = self.vertex.pool.members().get(number) else {
            return Ok(None);
        };
        let atoms = problem.atoms() as u64;
        if atoms == 0 {
            return Ok(None);
        }
        let first = self.draw.below(atoms) as usize;
        let mut world = with_atom_turned(self.alloc, &member.world, first)?;
        if self.draw.below(4) == 0 {
            let second = self.draw.below(atoms) as usize;
            world = with_atom_turned(self.alloc, &world, second)?;
        }
        Member::new(self.alloc, problem, world)
    }

    // Writes a world in terms of the basic columns: that of the row, and what the few rows change in which
    // it differs from that one's world.
    fn write_direction(
        &mut self,
        relaxed: &Relaxed,
        row: usize,
        number: usize,
        member: &Member,
    ) -> Result<(), AllocError> {
        let own = self.vertex.pool.truth(number);
        let changes = relaxed.changes(self.alloc, self.vertex.given, own, &member.truth)?;
        for (place, entry) in self.direction.iter_mut().enumerate() {
            let inverse_row = self.vertex.simplex.inverse_row(place);
            let mut sum = if place == row { 1.0 } else { 0.0 };
            for (changed, change) in &changes {
                sum += change * inverse_row.get(*changed).copied().unwrap_or(0.0);
            }
            *entry = sum;
        }
        Ok(())
    }

    // Makes a world basic in a row.
    fn pivot(
        &mut self,
        relaxed: &Relaxed,
        leaving: usize,
        entry: f64,
        member: Member,
    ) -> Result<(), NoMemory> {
        let number = match self.vertex.pool.place(&member.world) {
            Some(number) => number,
            None => self.vertex.add(relaxed, member, 0.0)?,
        };
        if self.vertex.simplex.exchange(leaving, Column::Added(number)) {
            self.size *= entry;
        }
        Ok(())
    }
}
