//! The search for the steps of a refutation.

use crate::budget::{Budget, most_turns};
use crate::clause_search::ClauseSearch;
use crate::clauses::Clauses;
use crate::hints::Hints;
use crate::lit::Lit;
use crate::steps::StepList;
use crate::trail::{Reason, Value};
use crate::variables::Variables;
use ps_clause::{ClauseForm, clauses_of};
use ps_formula::{Formulas, World};
use ps_io::NoMemory;
use ps_pb::Steps;
use std::alloc::Global;

/// What a search for a refutation comes to.
#[derive(Drop)]
pub enum Refuted {
    /// These steps show that no world has so large a sum.
    Shown(Steps),
    /// This world has.
    Against(World),
    /// Neither so far.
    Unfinished,
}

/// Looks for the steps that show that base and weights of the true nodes sum to less than 1 in each world, or
/// for a world in which they don't. The steps learn clauses from those of the nodes, in their order, and from
/// the goal behind them.
#[derive(Drop)]
pub struct Refutation {
    alloc: Global,
    core: ClauseSearch,
    variables: Variables,
    hints: Hints,
    steps: StepList,
}

// The clauses of a form.
fn clauses_in(alloc: Global, form: &ClauseForm) -> Result<Clauses, NoMemory> {
    let mut clauses = Clauses::new(alloc);
    let mut lits = Vec::new(alloc);
    for id in 1..form.clauses().saturating_add(1) {
        lits.clear();
        if let Some(clause) = form.clause(id) {
            for term in clause.terms().as_slice() {
                let place = u32::try_from(term.0.place()).unwrap_or(u32::MAX);
                lits.push(Lit::new(place, term.0.is_positive()))?;
            }
        }
        clauses.add(&lits, false, false)?;
    }
    Ok(clauses)
}

// A variable for each node.
fn variables_of(alloc: Global, formulas: &Formulas, atoms: u16) -> Result<Variables, NoMemory> {
    let mut variables = Variables::new(alloc, atoms)?;
    for (number, node) in (0..u32::MAX).zip(formulas.nodes()) {
        variables.add(number, *node, Some(Lit::new(number, true)))?;
    }
    Ok(variables)
}

impl Refutation {
    /// A search over worlds of so many atoms.
    pub fn new(
        alloc: Global,
        formulas: &Formulas,
        atoms: u16,
        weights: &[i128],
        base: i128,
    ) -> Result<Refutation, NoMemory> {
        let count = formulas.nodes().len();
        let form = clauses_of(alloc, formulas)?;
        let variables = variables_of(alloc, formulas, atoms)?;
        let clauses = clauses_in(alloc, &form)?;
        let steps = StepList::new(alloc, clauses.len());
        let mut core = ClauseSearch::new(alloc, clauses, variables.list(alloc)?, count)?;
        core.goal.set_weights(&variables, weights, base)?;
        for term in core.goal.terms() {
            core.order.keep_value(term.lit);
        }
        core.watch_all()?;
        let mut refutation = Refutation {
            alloc,
            core,
            variables,
            hints: Hints::new(alloc, count)?,
            steps,
        };
        refutation.set_units();
        refutation.core.set_least(1);
        Ok(refutation)
    }

    // Sets the literals that are clauses alone.
    fn set_units(&mut self) {
        for number in 0..u32::try_from(self.core.clauses.len()).unwrap_or(u32::MAX) {
            if let [lit] = self.core.clauses.lits(number) {
                let lit = *lit;
                if self.core.trail.value(lit) == Value::Open {
                    self.core.set(lit, Reason::Clause(number));
                }
            }
        }
    }

    /// How many clauses were learned.
    pub fn clauses_learned(&self) -> usize {
        self.steps.len()
    }

    /// Goes on by at most so many conflicts.
    pub fn go_on(&mut self, conflicts: u64) -> Result<Refuted, NoMemory> {
        let mut budget = Budget::new(conflicts);
        for _ in 0..most_turns(conflicts, self.core.trail.variables()) {
            if let Some(refuted) = self.turn(&mut budget)? {
                return Ok(refuted);
            }
        }
        Ok(Refuted::Unfinished)
    }

    // Propagates, and learns from a conflict, or decides; where each atom has a value, that is the world.
    fn turn(&mut self, budget: &mut Budget) -> Result<Option<Refuted>, NoMemory> {
        let Some(conflict) = self.core.propagate()? else {
            if self.core.decide()? {
                return Ok(None);
            }
            let world = self.core.world(self.variables.atoms())?;
            return Ok(Some(Refuted::Against(world)));
        };
        if self.core.trail.level() == 0 {
            self.hints.find_last(&self.core, conflict)?;
            self.steps.add(self.hints.reasons())?;
            let steps = self.steps.trim(self.alloc, &self.core.clauses)?;
            return Ok(Some(Refuted::Shown(steps)));
        }
        if !budget.spend() {
            self.core.cut_to(0);
            return Ok(Some(Refuted::Unfinished));
        }
        self.learn(conflict)?;
        Ok(None)
    }

    // Learns a clause.
    fn learn(&mut self, conflict: Reason) -> Result<(), NoMemory> {
        let level = self.core.analyse(conflict)?;
        self.hints.find_lesson(&self.core, conflict)?;
        self.steps.add(self.hints.reasons())?;
        self.core.take_lesson(level)
    }
}
