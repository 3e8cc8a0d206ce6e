//! The search for worlds.

use crate::budget::{Budget, most_turns};
use crate::clause_search::ClauseSearch;
use crate::ended::Ended;
use crate::gates::Gates;
use crate::lit::Lit;
use crate::trail::{Reason, Value};
use crate::variables::Variables;
use ps_climb::Demand;
use ps_formula::Formulas;
use ps_io::NoMemory;
use std::alloc::Global;

/// Looks for worlds of formulas in which a weighted sum of nodes is large enough. What was learned without
/// the sum serves each further one.
#[derive(Drop)]
pub struct WorldSearch {
    variables: Variables,
    core: ClauseSearch,
    /// Literals that are true in each world, of which the trail has so many first.
    facts: Vec<Lit>,
    known: usize,
    /// Whether they contradict one another.
    is_excluded: bool,
    /// Whether the nodes that count have literals.
    has_goal: bool,
    /// How many conflicts all searches met.
    conflicts: u64,
}

impl WorldSearch {
    /// A search over worlds of so many atoms. Nodes count only where they are cited.
    pub fn new(
        alloc: Global,
        formulas: &Formulas,
        atoms: u16,
        cited: &[u32],
    ) -> Result<WorldSearch, NoMemory> {
        let nodes = formulas.nodes();
        let gates = Gates::new(alloc, nodes, cited)?;
        let variables = gates.variables(nodes, atoms)?;
        let list = variables.list(alloc)?;
        Ok(WorldSearch {
            variables,
            core: ClauseSearch::new(alloc, gates.clauses, list, nodes.len())?,
            facts: gates.facts,
            known: 0,
            is_excluded: false,
            has_goal: false,
            conflicts: 0,
        })
    }

    /// From the next goal on worlds meet this demand as well, of cited nodes.
    pub fn demand(&mut self, demand: Demand) -> Result<(), NoMemory> {
        match demand {
            Demand::True(node) => self.add_fact(node, true),
            Demand::False(node) => self.add_fact(node, false),
            Demand::Implies(given, then) => self.add_implication(given, then),
        }
    }

    // A node has this truth value in each world.
    fn add_fact(&mut self, node: u32, value: bool) -> Result<(), NoMemory> {
        if let Some(lit) = self.variables.lit(node) {
            self.facts.push(lit.where_it_is(value))?;
        }
        Ok(())
    }

    // A node is true in each world in which another one is.
    fn add_implication(&mut self, given: u32, then: u32) -> Result<(), NoMemory> {
        if let (Some(given), Some(then)) = (self.variables.lit(given), self.variables.lit(then)) {
            self.core
                .clauses
                .add(&[given.opposite(), then], false, false)?;
        }
        Ok(())
    }

    /// How many conflicts all searches met.
    pub fn conflicts(&self) -> u64 {
        self.conflicts
    }

    /// From now on the sum is a base and the weights of the true nodes. An atom is first tried with the
    /// value that the sum wants, and else true where its wish is above 0.
    pub fn set_goal(
        &mut self,
        weights: &[i128],
        base: i128,
        wishes: &[f64],
    ) -> Result<(), NoMemory> {
        self.forget_goal()?;
        self.has_goal = self.core.goal.set_weights(&self.variables, weights, base)?;
        for (node, wish) in (0..u32::MAX).zip(wishes) {
            self.core.order.keep_value(Lit::new(node, *wish > 0.0));
        }
        for term in self.core.goal.terms() {
            self.core.order.keep_value(term.lit);
        }
        Ok(())
    }

    /// Looks for a world in which the sum is at least so much, and meets at most so many conflicts. For one
    /// goal the sum may be larger from search to search, and no less.
    pub fn seek(&mut self, least: i128, conflicts: u64) -> Result<Ended, NoMemory> {
        if !self.has_goal {
            return Ok(Ended::Spent);
        }
        if self.is_excluded {
            return Ok(Ended::Nothing);
        }
        self.core.set_least(least);
        let mut budget = Budget::new(conflicts);
        for _ in 0..most_turns(conflicts, self.core.trail.variables()) {
            if let Some(ended) = self.turn(&mut budget)? {
                return Ok(ended);
            }
        }
        Ok(Ended::Spent)
    }

    // Propagates, and learns from a conflict, or decides; where each atom has a value, that is the world.
    fn turn(&mut self, budget: &mut Budget) -> Result<Option<Ended>, NoMemory> {
        let Some(conflict) = self.core.propagate()? else {
            if self.core.decide()? {
                return Ok(None);
            }
            let world = self.core.world(self.variables.atoms())?;
            return Ok(Some(Ended::Found(world)));
        };
        if self.core.trail.level() == 0 {
            return Ok(Some(Ended::Nothing));
        }
        if !budget.spend() {
            return Ok(Some(Ended::Spent));
        }
        self.conflicts = self.conflicts.saturating_add(1);
        let level = self.core.analyse(conflict)?;
        self.core.take_lesson(level)?;
        Ok(None)
    }

    // Forgets what follows from the goal, and sets what is known.
    fn forget_goal(&mut self) -> Result<(), NoMemory> {
        self.core.cut_to(0);
        for place in self.known..self.core.trail.len() {
            if let Some(lit) = self.core.trail.at(place) {
                if !self.core.trail.standing(lit).is_of_goal {
                    self.facts.push(lit)?;
                }
            }
        }
        self.core.trail.clear();
        self.set_facts();
        self.core.clauses = self.core.clauses.without_goal(&self.core.trail)?;
        self.find_facts()?;
        self.core.watch_all()?;
        self.set_facts();
        self.known = self.core.trail.len();
        Ok(())
    }

    // Sets the facts.
    fn set_facts(&mut self) {
        for fact in &self.facts {
            match self.core.trail.value(*fact) {
                Value::True => {}
                Value::False => self.is_excluded = true,
                Value::Open => self.core.trail.set(*fact, Reason::Chosen, false),
            }
        }
    }

    // Finds the clauses that have one literal left, or none.
    fn find_facts(&mut self) -> Result<(), NoMemory> {
        for number in 0..u32::try_from(self.core.clauses.len()).unwrap_or(u32::MAX) {
            match self.core.clauses.lits(number) {
                [] => self.is_excluded = true,
                [fact] => self.facts.push(*fact)?,
                _ => {}
            }
        }
        Ok(())
    }
}
