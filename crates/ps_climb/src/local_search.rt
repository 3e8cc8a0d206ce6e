//! Search over worlds.
ghost use Rattle.std.specs.Prelude.{◌≡◌, length, IfOk, IfSome};

mod every_world;

use crate::choice::Choice;
use crate::demand::Demand;
use crate::draw::Draw;
use crate::goal::Goal;
use crate::neighbours::Worlds;
use crate::nodes::Nodes;
use ps_formula::{Formulas, World};
use ps_io::NoMemory;
use std::alloc::Global;

/// Values that differ by less than this part of the penalty of a demand count as equal.
const SAME_VALUE: f64 = 1e-12;

/// A local search over the worlds of formulas. A step turns one atom; the values of all worlds that
/// differ in one atom are found at once. A demand that isn't met costs more than all coefficients.
///
/// Numbers drawn by chance decide between equal steps: the same calls in the same order have the same
/// results.
#[derive(Drop)]
pub struct LocalSearch {
    alloc: Global,
    nodes: Nodes,
    draw: Draw,
    /// The present world, and the best so far.
    world: Vec<bool>,
    best: Vec<bool>,
    /// By how much the value rises where an atom is turned.
    gains: Vec<f64>,
    /// The step before which an atom isn't turned again.
    barred_until: Vec<u32>,
}

impl LocalSearch {
    /// A search over worlds of so many atoms. Further atoms stay as they are in the world that a search
    /// starts with.
    pub fn new(
        alloc: Global,
        formulas: &Formulas,
        atoms: usize,
        demands: &[Demand],
        seed: u64,
    ) -> Result<LocalSearch, NoMemory> {
        Ok(LocalSearch {
            alloc,
            nodes: Nodes::new(alloc, formulas, demands)?,
            draw: Draw::new(seed),
            world: vec![in alloc; false; atoms]?,
            best: vec![in alloc; false; atoms]?,
            gains: vec![in alloc; 0.0; atoms]?,
            barred_until: vec![in alloc; 0; atoms]?,
        })
    }

    /// The best world on a way of so many steps at most, where it meets the demands and is above the
    /// threshold. Each step turns the atom that leads to the greatest value, also where that is less
    /// than the present one; the atom isn't turned back for 2 to 6 steps, except to a value above the
    /// best so far. The way ends early where a fourth of the atoms and 6 more steps bring nothing better.
    /// Method: tabu search, F. Glover 1989.
    pub fn search(
        &mut self,
        goal: Goal<'_>,
        start: &World,
        steps: u32,
    ) -> Result<Option<World>, NoMemory>
        ensures { IfOk result (λ found. IfSome found (λ w. length w ≡ length start.now)) }
    {
        let tolerance = self.begin(goal, start)?;
        self.walk(steps, tolerance);
        self.best_world(goal, start)
    }

    /// The world at the end of a way of so many steps at most, each of which turns the atom that raises
    /// the value most, where one does; where it meets the demands and is above the threshold.
    pub fn climb(
        &mut self,
        goal: Goal<'_>,
        start: &World,
        steps: u32,
    ) -> Result<Option<World>, NoMemory>
        ensures { IfOk result (λ found. IfSome found (λ w. length w ≡ length start.now)) }
    {
        let tolerance = self.begin(goal, start)?;
        self.rise(steps, tolerance);
        self.best_world(goal, start)
    }

    /// Takes in a goal and a world, and answers by how much equal values may differ.
    fn begin(&mut self, goal: Goal<'_>, start: &World) -> Result<f64, NoMemory> {
        let penalty = self.nodes.weigh(goal.coefficients);
        self.nodes.find_needed()?;
        self.world.fill(false);
        copy(&mut self.world, start.as_slice());
        copy(&mut self.best, &self.world);
        self.barred_until.fill(0);
        Ok(SAME_VALUE * penalty)
    }

    /// Goes on a way of so many steps at most.
    fn walk(&mut self, steps: u32, tolerance: f64) {
        let patience = self.world.len() / 4 + 6;
        let mut most = self.look_around();
        let mut here = most;
        let mut stale: usize = 0;
        for step in 0..steps {
            let Some(atom) = self.free_neighbour(step, here, most, tolerance) else {
                return;
            };
            here += self.go(atom);
            self.bar(atom, step);
            if here > most + tolerance {
                most = here;
                copy(&mut self.best, &self.world);
                stale = 0;
            } else {
                stale = stale.saturating_add(1);
            }
            if stale >= patience {
                return;
            }
        }
    }

    /// Goes up by so many steps at most.
    fn rise(&mut self, steps: u32, tolerance: f64) {
        self.look_around();
        for _ in 0..steps {
            let Some(atom) = self.higher_neighbour(tolerance) else {
                return;
            };
            self.go(atom);
            turn(&mut self.best, atom);
        }
    }

    /// Finds the value of the present world, and how much more its neighbours have.
    fn look_around(&mut self) -> f64 {
        self.nodes.evaluate(Worlds::Around(&self.world));
        self.nodes.find_gains(&mut self.gains)
    }

    /// Goes to the neighbour in which an atom is turned, and answers by how much the value rose.
    fn go(&mut self, atom: usize) -> f64 {
        turn(&mut self.world, atom);
        let number = u16::try_from(atom).unwrap_or(u16::MAX);
        self.nodes
            .turn(number, Worlds::Around(&self.world), &mut self.gains)
    }

    /// The atom to turn for the greatest value, of those that aren't barred or lead to more than the
    /// best so far.
    fn free_neighbour(&mut self, step: u32, here: f64, most: f64, tolerance: f64) -> Option<usize> {
        let mut choice = Choice::none(tolerance);
        let atoms = self.gains.iter().zip(&self.barred_until).enumerate();
        for (atom, (gain, until)) in atoms {
            let value = here + gain;
            if *until <= step || value > most + tolerance {
                choice.offer(atom, value, &mut self.draw);
            }
        }
        choice.atom()
    }

    /// The atom to turn for the greatest value, where that is more than the present one.
    fn higher_neighbour(&mut self, tolerance: f64) -> Option<usize> {
        let mut choice = Choice::none(tolerance);
        for (atom, gain) in self.gains.iter().enumerate() {
            if *gain > tolerance {
                choice.offer(atom, *gain, &mut self.draw);
            }
        }
        choice.atom()
    }

    /// Bars an atom for the next steps.
    fn bar(&mut self, atom: usize, step: u32) {
        let steps = 3 + self.draw.below(5) as u32;
        if let Some(until) = self.barred_until.get_mut(atom) {
            *until = step.saturating_add(steps);
        }
    }

    /// The best world, where it meets the demands and is above the threshold. Its value is found afresh
    /// without the demands, which may have rounded it away.
    fn best_world(&mut self, goal: Goal<'_>, start: &World) -> Result<Option<World>, NoMemory>
        ensures { IfOk result (λ found. IfSome found (λ w. length w ≡ length start.now)) }
    {
        self.nodes.evaluate(Worlds::Around(&self.best));
        let value = goal.constant + self.nodes.value(goal.coefficients);
        if value > goal.threshold && self.nodes.meet_demands() {
            Ok(Some(with_values(self.alloc, start, &self.best)?))
        } else {
            Ok(None)
        }
    }
}

/// The world with these values of its first atoms.
fn with_values(alloc: Global, start: &World, values: &[bool]) -> Result<World, NoMemory>
    ensures { IfOk result (λ w. length w ≡ length start.now) }
{
    let mut world = World::new(alloc);
    for (atom, value) in start.as_slice().iter().enumerate() {
        world.push(values.get(atom).copied().unwrap_or(*value))?;
    }
    Ok(world)
}

/// Turns the value of an atom, where it is there.
fn turn(world: &mut [bool], atom: usize) {
    if let Some(value) = world.get_mut(atom) {
        *value = !*value;
    }
}

/// Writes values over others.
fn copy(target: &mut [bool], values: &[bool]) {
    for (x, y) in target.iter_mut().zip(values) {
        *x = *y;
    }
}
