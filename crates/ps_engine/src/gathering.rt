//! The worlds of a vertex gathered around few of them.

use crate::about::About;
use crate::limits::{
    CENTRES, FINE_VALUE, GATHERED_GAIN, GATHERING_ROUNDS, GATHERING_STEPS, MOST_PIVOTS,
    MOST_REPAIRS, OFF_FACE, SEED,
};
use crate::vertex::Vertex;
use ps_climb::{Goal as ClimbGoal, LocalSearch};
use ps_float_pricing::{FloatGoal, Member, Relaxed};
use ps_formula::World;
use ps_io::NoMemory;
use ps_problem::Problem;
use ps_simplex_float::{Column, Ending, Simplex};
use std::alloc::Global;
use std::num::saturating_f64_to_i64;

/// A vertex of a face whose worlds are to be near one another. A world costs as much as the number of rows
/// in which it differs from the nearest of some centres, the heaviest worlds of the first vertex, and the
/// cost is minimised. Where most worlds of a basis differ in few rows from others of it, most columns less
/// another one have few entries, so that the determinant is small, and with it the numbers of the vertex.
#[derive(Drop)]
pub(crate) struct Gathering {
    alloc: Global,
    vertex: Vertex,
    /// 0 in the worlds of the face, and below 0 in all others.
    gain: FloatGoal,
    level: f64,
    centres: Vec<Centre>,
    /// In how many rows each node stands.
    counts: Vec<f64>,
    local: LocalSearch,
    /// The goal of the present search.
    goal: FloatGoal,
    rounds: u32,
    is_over: bool,
}

/// A world around which others gather.
#[derive(Drop)]
struct Centre {
    world: World,
    truth: Vec<bool>,
}

// In how many rows each node stands.
fn counts_of(alloc: Global, relaxed: &Relaxed) -> Result<Vec<f64>, NoMemory> {
    let mut counts = vec![in alloc; 0.0; relaxed.nodes()]?;
    for row in relaxed.rows() {
        for term in row.terms() {
            count(&mut counts, term.node);
        }
    }
    Ok(counts)
}

// Counts a node.
fn count(counts: &mut [f64], node: u32) {
    if let Some(it) = counts.get_mut(node as usize) {
        *it += 1.0;
    }
}

// In how many rows two worlds differ, by the truth of their nodes.
fn distance(counts: &[f64], own: &[bool], other: &[bool]) -> f64 {
    let mut sum = 0.0;
    for (count, (own, other)) in counts.iter().zip(own.iter().zip(other)) {
        if *own != *other {
            sum += count;
        }
    }
    sum
}

// The basic worlds of a vertex by their places in its pool, the heaviest first.
fn heaviest(alloc: Global, simplex: &Simplex) -> Result<Vec<usize>, NoMemory> {
    let mut keys = Vec::new(alloc);
    for (column, value) in simplex.basis().iter().zip(simplex.values()) {
        if let Column::Added(place) = *column {
            let key = saturating_f64_to_i64(-value * FINE_VALUE);
            keys.push((key, place))?;
        }
    }
    keys.sort()?;
    let mut places = Vec::new(alloc);
    for (_, place) in keys {
        places.push(place)?;
    }
    Ok(places)
}

// The worlds around which those of a vertex gather.
fn centres_of(alloc: Global, vertex: &Vertex) -> Result<Vec<Centre>, NoMemory> {
    let mut centres = Vec::new(alloc);
    for place in heaviest(alloc, &vertex.simplex)?.iter().take(CENTRES) {
        if let Some(member) = vertex.member(*place)? {
            centres.push(Centre {
                world: member.world,
                truth: member.truth,
            })?;
        }
    }
    Ok(centres)
}

impl Gathering {
    /// Begins at a vertex, within the face where no world gains.
    pub(crate) fn new(
        alloc: Global,
        problem: &Problem,
        about: About<'_>,
        simplex: &Simplex,
        gain: FloatGoal,
        level: f64,
    ) -> Result<Option<Gathering>, NoMemory> {
        let Some(vertex) = Vertex::new(alloc, about, simplex)? else {
            return Ok(None);
        };
        let relaxed = about.relaxed;
        let demands = relaxed.demands(alloc)?;
        let atoms = problem.atoms() as usize;
        let mut gathering = Gathering {
            alloc,
            centres: centres_of(alloc, &vertex)?,
            vertex,
            gain,
            level,
            counts: counts_of(alloc, relaxed)?,
            local: LocalSearch::new(alloc, problem.formulas(), atoms, &demands, SEED)?,
            goal: FloatGoal::new(alloc, relaxed.nodes())?,
            rounds: 0,
            is_over: false,
        };
        gathering.set_costs();
        Ok(Some(gathering))
    }

    // Sets what the worlds cost.
    fn set_costs(&mut self) {
        for place in 0..self.vertex.pool.members().len() {
            let cost = self.cost(self.vertex.pool.truth(place));
            self.vertex.simplex.set_cost(place, cost);
        }
    }

    // In how many rows a world differs from the nearest centre.
    fn cost(&self, truth: &[bool]) -> f64 {
        let mut least = OFF_FACE;
        for centre in &self.centres {
            least = least.min(distance(&self.counts, &centre.truth, truth));
        }
        least
    }

    /// The vertex that it is at.
    pub(crate) fn vertex(&self) -> &Vertex {
        &self.vertex
    }

    /// Whether no more worlds come.
    pub(crate) fn is_over(&self) -> bool {
        self.is_over
    }

    /// Goes on by a round, and answers whether the values are small then: the cost is minimised, and from
    /// each centre a world is sought that lowers it.
    pub(crate) fn go_on(&mut self, problem: &Problem, relaxed: &Relaxed) -> Result<bool, NoMemory> {
        self.rounds = self.rounds.saturating_add(1);
        let is_least = self.vertex.simplex.minimise(MOST_PIVOTS) == Ending::Optimal
            && self.vertex.simplex.clean(MOST_REPAIRS) == Ending::Optimal;
        if !is_least || self.rounds >= GATHERING_ROUNDS {
            self.is_over = true;
            return Ok(false);
        }
        if self.vertex.is_small(relaxed)? {
            return Ok(true);
        }
        self.vertex.simplex.find_duals();
        self.is_over = !self.price(problem, relaxed, false)?
            && !self.price(problem, relaxed, true)?;
        Ok(false)
    }

    // Adds worlds that lower the cost, by ways that lead upwards alone, or by longer ones, and answers
    // whether there are any.
    fn price(
        &mut self,
        problem: &Problem,
        relaxed: &Relaxed,
        is_thorough: bool,
    ) -> Result<bool, NoMemory> {
        let mut has_more = false;
        for number in 0..self.centres.len() {
            if let Some(member) = self.world_near(problem, relaxed, number, is_thorough)? {
                let cost = self.cost(&member.truth);
                self.vertex.add(relaxed, member, cost)?;
                has_more = true;
            }
        }
        Ok(has_more)
    }

    // A new world of the face near a centre that lowers the cost.
    fn world_near(
        &mut self,
        problem: &Problem,
        relaxed: &Relaxed,
        number: usize,
        is_thorough: bool,
    ) -> Result<Option<Member>, NoMemory> {
        self.write_goal(relaxed, number);
        let Some(centre) = self.centres.get(number) else {
            return Ok(None);
        };
        let goal = ClimbGoal {
            coefficients: self.goal.weights(),
            constant: self.goal.base(),
            threshold: GATHERED_GAIN,
        };
        let found = if is_thorough {
            self.local.search(goal, &centre.world, GATHERING_STEPS)?
        } else {
            self.local.climb(goal, &centre.world, GATHERING_STEPS)?
        };
        let Some(world) = found else {
            return Ok(None);
        };
        let Some(member) = Member::new(self.alloc, problem, world)? else {
            return Ok(None);
        };
        let is_new = self.vertex.pool.place(&member.world).is_none();
        let is_on_face = self.gain.value(&member.truth) >= -self.level;
        Ok(if is_new && is_on_face && relaxed.allows(&member.truth) {
            Some(member)
        } else {
            None
        })
    }

    // Writes by how much a world lowers the cost, if none but this centre is near it. Worlds off the face
    // count far less.
    fn write_goal(&mut self, relaxed: &Relaxed, number: usize) {
        let duals = self.vertex.simplex.duals();
        let head = duals.first().copied().unwrap_or(0.0);
        relaxed.write_free_gain(self.vertex.given, head, duals, &mut self.goal);
        for (node, weight) in (0..u32::MAX).zip(self.gain.weights()) {
            self.goal.add(node, OFF_FACE * OFF_FACE * weight);
        }
        self.goal
            .add_given(None, OFF_FACE * OFF_FACE * self.gain.base());
        let Some(centre) = self.centres.get(number) else {
            return;
        };
        for (node, (count, is_true)) in (0..u32::MAX).zip(self.counts.iter().zip(&centre.truth)) {
            if *is_true {
                self.goal.add(node, *count);
                self.goal.add_given(None, -count);
            } else {
                self.goal.add(node, -count);
            }
        }
    }
}
