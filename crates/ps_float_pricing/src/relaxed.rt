//! A problem, split for a float program.

use crate::aim::Aim;
use crate::float_goal::FloatGoal;
use crate::goal::Goal;
use crate::multipliers::Multipliers;
use crate::row::{Certainty, Row};
use crate::sorting::{Part, part_of};
use crate::truth::is_given;
use ps_climb::Demand;
use ps_io::NoMemory;
use ps_problem::Problem;
use std::alloc::{AllocError, Global};
use std::num::nearest_i64_to_f64;

// Adds a row, times its price.
fn add_price(row: &Row, dual: f64, goal: &mut FloatGoal) {
    for term in row.terms() {
        goal.add(term.node, dual * term.share);
    }
    if row.base() != 0 {
        goal.add_given(None, dual * row.base_share());
    }
}

// Adds a row as its bound has it, times a multiplier.
fn add_row(row: &Row, multiplier: i128, goal: &mut Goal) {
    let turned = multiplier.wrapping_mul(row.sign() as i128);
    for term in row.terms() {
        goal.add(term.node, turned.wrapping_mul(term.number as i128));
    }
    goal.add_given(None, turned.wrapping_mul(row.base() as i128));
}

/// The most size of a multiplier.
const MOST_MULTIPLIER: i128 = 1 << 90;

/// A problem, split for a float program: the rows, and the certainties. Bounds that every distribution
/// meets are left out, and those of sentences that aren't kept. Row 0 of the program is that of the
/// evidence, and then these rows follow.
#[derive(Drop)]
pub struct Relaxed {
    nodes: usize,
    bounds: usize,
    rows: Vec<Row>,
    certainties: Vec<Certainty>,
}

impl Relaxed {
    /// The split of the sentences of a problem that are kept, by a truth value for each; those past the
    /// end of the list are kept. A bound has its number in the problem.
    pub fn new(alloc: Global, problem: &Problem, kept: &[bool]) -> Result<Relaxed, AllocError> {
        let mut relaxed = Relaxed {
            nodes: problem.formulas().nodes().len(),
            bounds: 0,
            rows: Vec::new(alloc),
            certainties: Vec::new(alloc),
        };
        for (place, sentence) in problem.sentences().as_slice().iter().enumerate() {
            let is_kept = kept.get(place).copied().unwrap_or(true);
            relaxed.add(alloc, problem, sentence.bounds(), is_kept)?;
        }
        Ok(relaxed)
    }

    // Takes in the next bounds, so many of them, where they are kept.
    fn add(
        &mut self,
        alloc: Global,
        problem: &Problem,
        count: u32,
        is_kept: bool,
    ) -> Result<(), AllocError> {
        for _ in 0..count {
            let number = self.bounds;
            self.bounds = number.wrapping_add(1);
            if is_kept {
                self.add_bound(alloc, problem, number)?;
            }
        }
        Ok(())
    }

    // Takes in the bound of a number.
    fn add_bound(
        &mut self,
        alloc: Global,
        problem: &Problem,
        number: usize,
    ) -> Result<(), AllocError> {
        let Some(row) = problem.rows().get(number) else {
            return Ok(());
        };
        match part_of(alloc, number, row, problem.formulas().nodes())? {
            Part::Row(row) => self.rows.push(row)?,
            Part::Certain(certainty) => self.certainties.push(certainty)?,
            Part::Met => {}
        }
        Ok(())
    }

    /// The number of nodes.
    pub fn nodes(&self) -> usize {
        self.nodes
    }

    /// The number of bounds.
    pub fn bounds(&self) -> usize {
        self.bounds
    }

    /// The rows.
    pub fn rows(&self) -> &[Row] {
        &self.rows
    }

    /// The certainties.
    pub fn certainties(&self) -> &[Certainty] {
        &self.certainties
    }

    /// What they demand of a world that a local search looks for.
    pub fn demands(&self, alloc: Global) -> Result<Vec<Demand>, NoMemory> {
        let mut demands = Vec::new(alloc);
        for certainty in &self.certainties {
            demands.push(certainty.demand())?;
        }
        Ok(demands)
    }

    /// Whether a world meets the certainties.
    pub fn allows(&self, truth: &[bool]) -> bool {
        self.certainties.iter().all(|c| c.is_met(truth))
    }

    /// The entry of a row of the program for a world, in whole numbers.
    pub fn entry(&self, row: usize, given: Option<u32>, truth: &[bool]) -> i64 {
        if row == 0 {
            return if is_given(truth, given) { 1 } else { 0 };
        }
        match self.rows.get(row.wrapping_sub(1)) {
            Some(row) => row.entry(truth),
            None => 0,
        }
    }

    /// The column of a world.
    pub fn column(
        &self,
        alloc: Global,
        given: Option<u32>,
        truth: &[bool],
    ) -> Result<Vec<f64>, AllocError> {
        let mut column = Vec::new(alloc);
        column.push(if is_given(truth, given) { 1.0 } else { 0.0 })?;
        for row in &self.rows {
            column.push(nearest_i64_to_f64(row.entry(truth)) / row.denominator())?;
        }
        Ok(column)
    }

    /// The rows in which the column of a world differs from that of another, and by how much.
    pub fn changes(
        &self,
        alloc: Global,
        given: Option<u32>,
        own: &[bool],
        other: &[bool],
    ) -> Result<Vec<(usize, f64)>, AllocError> {
        let mut changes = Vec::new(alloc);
        let head = self
            .entry(0, given, other)
            .wrapping_sub(self.entry(0, given, own));
        if head != 0 {
            changes.push((0, nearest_i64_to_f64(head)))?;
        }
        for (number, row) in (1..usize::MAX).zip(&self.rows) {
            let change = row.entry(other).wrapping_sub(row.entry(own));
            if change != 0 {
                changes.push((number, nearest_i64_to_f64(change) / row.denominator()))?;
            }
        }
        Ok(changes)
    }

    /// Writes what the rows' prices make of a world's gain for an aim.
    pub fn write_gain(&self, aim: Aim, duals: &[f64], goal: &mut FloatGoal) {
        goal.clear();
        goal.add_given(aim.evidence(), duals.first().copied().unwrap_or(0.0));
        match aim {
            Aim::Consistent => {}
            Aim::Least(query) => goal.add(query.both, -1.0),
            Aim::Greatest(query) => goal.add(query.both, 1.0),
        }
        self.add_prices(duals, goal);
    }

    /// Writes what the rows' prices make of a world's gain where no world costs anything, with the price of
    /// the evidence.
    pub fn write_free_gain(
        &self,
        given: Option<u32>,
        head: f64,
        duals: &[f64],
        goal: &mut FloatGoal,
    ) {
        goal.clear();
        goal.add_given(given, head);
        self.add_prices(duals, goal);
    }

    // Adds the rows' prices, which follow that of the evidence.
    fn add_prices(&self, duals: &[f64], goal: &mut FloatGoal) {
        for (row, dual) in self.rows.iter().zip(duals.iter().skip(1)) {
            if *dual != 0.0 {
                add_price(row, *dual, goal);
            }
        }
    }

    /// The combination of multipliers for an aim, without the certainties.
    pub fn combination(
        &self,
        alloc: Global,
        aim: Aim,
        multipliers: &Multipliers,
    ) -> Result<Goal, AllocError> {
        let mut goal = Goal::new(alloc, self.nodes)?;
        match aim {
            Aim::Consistent => goal.add_given(None, multipliers.head),
            Aim::Least(query) => {
                goal.add_given(query.given, multipliers.head);
                goal.add(query.both, multipliers.top.wrapping_neg());
            }
            Aim::Greatest(query) => {
                goal.add_given(query.given, multipliers.head.wrapping_neg());
                goal.add(query.both, multipliers.top);
            }
        }
        for row in &self.rows {
            let multiplier = multipliers.get(row.number);
            if multiplier != 0 {
                add_row(row, multiplier, &mut goal);
            }
        }
        Ok(goal)
    }

    /// Adds the certainties to a combination, each with this multiplier.
    pub fn add_certainties(&self, goal: &mut Goal, multiplier: i128) {
        for certainty in &self.certainties {
            if certainty.is_true {
                goal.add(certainty.both, multiplier);
                goal.add_given(certainty.given, multiplier.wrapping_neg());
            } else {
                goal.add(certainty.both, multiplier.wrapping_neg());
            }
        }
    }

    /// Gives the certainties multipliers that outweigh the rest of a combination, so that it is below
    /// 1 where one isn't met. Answers whether they are small.
    pub fn outweigh(&self, goal: &mut Goal, multipliers: &mut Multipliers) -> bool {
        let most = goal.greatest().max(0);
        if most > MOST_MULTIPLIER {
            return false;
        }
        self.add_certainties(goal, most);
        for certainty in &self.certainties {
            multipliers.set(
                certainty.number,
                if certainty.is_true {
                    most
                } else {
                    most.wrapping_neg()
                },
            );
        }
        true
    }
}
