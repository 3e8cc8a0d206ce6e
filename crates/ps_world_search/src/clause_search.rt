//! Search by clauses for a sum that is large enough.

use crate::analysis::Analysis;
use crate::causes::Scene;
use crate::clauses::Clauses;
use crate::goal_sum::GoalSum;
use crate::lit::Lit;
use crate::order::Order;
use crate::trail::{Reason, Trail, Value};
use crate::watches::{Shown, Watch, Watches, visit};
use ps_formula::World;
use ps_io::NoMemory;
use std::alloc::Global;

/// Clauses and a goal, with the literals that are set.
#[derive(Drop)]
pub(crate) struct ClauseSearch {
    pub(crate) alloc: Global,
    pub(crate) clauses: Clauses,
    watches: Watches,
    pub(crate) trail: Trail,
    pub(crate) goal: GoalSum,
    pub(crate) order: Order,
    pub(crate) analysis: Analysis,
}

impl ClauseSearch {
    /// Nothing is set of so many variables, of which these are atoms.
    pub(crate) fn new(
        alloc: Global,
        clauses: Clauses,
        atoms: Vec<u32>,
        variables: usize,
    ) -> Result<ClauseSearch, NoMemory> {
        Ok(ClauseSearch {
            alloc,
            clauses,
            watches: Watches::new(alloc, variables)?,
            trail: Trail::new(alloc, variables)?,
            goal: GoalSum::new(alloc, variables)?,
            order: Order::new(alloc, atoms, variables)?,
            analysis: Analysis::new(alloc, variables)?,
        })
    }

    /// What is set, and why.
    pub(crate) fn scene(&self) -> Scene<'_> {
        Scene {
            trail: &self.trail,
            clauses: &self.clauses,
            goal: &self.goal,
        }
    }

    /// Watches each clause of two literals and more.
    pub(crate) fn watch_all(&mut self) -> Result<(), NoMemory> {
        self.watches.clear();
        for number in 0..u32::try_from(self.clauses.len()).unwrap_or(u32::MAX) {
            self.watches.attach(number, self.clauses.lits(number))?;
        }
        Ok(())
    }

    /// From now on the sum is to be at least so much.
    pub(crate) fn set_least(&mut self, least: i128) {
        self.cut_to(0);
        self.goal.set_least(&self.trail, least);
    }

    /// Sets a literal.
    pub(crate) fn set(&mut self, lit: Lit, reason: Reason) {
        let is_of_goal = self.trail.level() == 0 && self.rests_on_goal(lit, reason);
        self.trail.set(lit, reason, is_of_goal);
        self.goal.see(lit);
    }

    // Whether a literal that is set before any decision follows from the goal.
    fn rests_on_goal(&self, lit: Lit, reason: Reason) -> bool {
        if self.clauses.rests_on_goal(reason) {
            return true;
        }
        match reason {
            Reason::Chosen | Reason::Goal => false,
            Reason::Clause(number) => self.clauses.lits(number).iter().any(|other| *other != lit
                && self.trail.standing(*other).is_of_goal),
        }
    }

    /// Decides on an atom, and answers whether one had no value.
    pub(crate) fn decide(&mut self) -> Result<bool, NoMemory> {
        match self.order.choose(&self.trail) {
            None => Ok(false),
            Some(lit) => {
                self.trail.open_level()?;
                self.set(lit, Reason::Chosen);
                Ok(true)
            }
        }
    }

    /// The world in which these variables of atoms have their present values.
    pub(crate) fn world(&self, atoms: &[Option<u32>]) -> Result<World, NoMemory> {
        let mut world = World::new(self.alloc);
        for atom in atoms {
            let is_true = match atom {
                Some(variable) => self.trail.value(Lit::new(*variable, true)) == Value::True,
                None => false,
            };
            world.push(is_true)?;
        }
        Ok(world)
    }

    /// Sets what is forced. Some is the reason of a conflict.
    pub(crate) fn propagate(&mut self) -> Result<Option<Reason>, NoMemory> {
        for _ in 0..self.trail.variables().saturating_add(1) {
            if let Some(clause) = self.follow()? {
                return Ok(Some(Reason::Clause(clause)));
            }
            if self.goal.is_missed() {
                return Ok(Some(Reason::Goal));
            }
            match self.goal.next_forced(&self.trail) {
                None => return Ok(None),
                Some(lit) => self.set(lit, Reason::Goal),
            }
        }
        Ok(None)
    }

    // Sets what clauses force, as long as the goal isn't missed. Some is a clause whose literals are false.
    fn follow(&mut self) -> Result<Option<u32>, NoMemory> {
        for _ in 0..self.trail.variables() {
            if self.goal.is_missed() {
                return Ok(None);
            }
            let Some(lit) = self.trail.next() else {
                return Ok(None);
            };
            if let Some(clause) = self.visit_watches(lit.opposite())? {
                return Ok(Some(clause));
            }
        }
        Ok(None)
    }

    // Visits the clauses in which a literal is watched that has become false.
    fn visit_watches(&mut self, lit: Lit) -> Result<Option<u32>, NoMemory> {
        let mut list = self.watches.take(lit);
        let mut violated = None;
        let mut kept: usize = 0;
        for place in 0..list.len() {
            let Some(watch) = list.get(place).copied() else {
                break;
            };
            if let Some(stays) = self.look(watch, lit, &mut violated)? {
                if let Some(place) = list.get_mut(kept) {
                    *place = stays;
                }
                kept = kept.saturating_add(1);
            }
        }
        list.truncate(kept);
        self.watches.put(lit, list);
        Ok(violated)
    }

    // Visits a clause, and answers the watch that stays.
    #[inline]
    fn look(
        &mut self,
        watch: Watch,
        lit: Lit,
        violated: &mut Option<u32>,
    ) -> Result<Option<Watch>, NoMemory> {
        if violated.is_some() {
            return Ok(Some(watch));
        }
        let clause = watch.clause;
        match visit(&mut self.clauses, &self.trail, watch, lit) {
            Shown::Met(other) => Ok(Some(Watch { clause, other })),
            Shown::Moved { to, other } => {
                self.watches.add(to, Watch { clause, other })?;
                Ok(None)
            }
            Shown::Forces(other) => {
                self.set(other, Reason::Clause(clause));
                Ok(Some(Watch { clause, other }))
            }
            Shown::Violated => {
                *violated = Some(clause);
                Ok(Some(watch))
            }
        }
    }

    /// Takes back what was set behind more decisions than so many.
    pub(crate) fn cut_to(&mut self, level: usize) {
        for _ in 0..self.trail.len().saturating_add(1) {
            let Some(lit) = self.trail.take_above(level) else {
                return;
            };
            self.goal.give_back(lit);
            self.order.keep_value(lit);
        }
    }

    /// Learns a clause from a conflict, and answers the level to go on from.
    pub(crate) fn analyse(&mut self, conflict: Reason) -> Result<usize, NoMemory> {
        let scene = Scene {
            trail: &self.trail,
            clauses: &self.clauses,
            goal: &self.goal,
        };
        Ok(self.analysis.learn(scene, &mut self.order, conflict)?)
    }

    /// Goes back to a level, takes the learned clause in, and sets the literal that it forces.
    pub(crate) fn take_lesson(&mut self, level: usize) -> Result<(), NoMemory> {
        self.cut_to(level);
        let lits = self.analysis.clause();
        let Some(forced) = lits.first().copied() else {
            return Ok(());
        };
        let number = self.clauses.add(lits, true, self.analysis.is_of_goal())?;
        self.watches.attach(number, lits)?;
        self.set(forced, Reason::Clause(number));
        Ok(())
    }
}
