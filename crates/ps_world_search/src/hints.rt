//! The reasons from which a learned clause follows.

use crate::causes::{Scene, write_causes};
use crate::clause_search::ClauseSearch;
use crate::lit::Lit;
use crate::trail::{Reason, Value};
use std::alloc::{AllocError, Global};

/// The reasons from which a clause follows by propagation, in their order: with its literals false, each
/// forces a literal, and the last one can't be met.
#[derive(Drop)]
pub(crate) struct Hints {
    /// By variable: whether it takes part, and whether it stands in the clause.
    is_needed: Vec<bool>,
    is_kept: Vec<bool>,
    /// By the place of a literal: what is known along the reasons.
    values: Vec<Value>,
    causes: Vec<Lit>,
    reasons: Vec<Reason>,
}

impl Hints {
    /// None so far, over so many variables.
    pub(crate) fn new(alloc: Global, variables: usize) -> Result<Hints, AllocError> {
        Ok(Hints {
            is_needed: vec![in alloc; false; variables]?,
            is_kept: vec![in alloc; false; variables]?,
            values: vec![in alloc; Value::Open; variables.saturating_mul(2)]?,
            causes: Vec::new(alloc),
            reasons: Vec::new(alloc),
        })
    }

    /// The reasons that were found last.
    pub(crate) fn reasons(&self) -> &[Reason] {
        &self.reasons
    }

    /// Finds the reasons of the clause that was learned last, from this conflict.
    pub(crate) fn find_lesson(
        &mut self,
        core: &ClauseSearch,
        conflict: Reason,
    ) -> Result<(), AllocError> {
        self.find(core.scene(), conflict, core.analysis.clause())
    }

    /// Finds the reasons of the clause without literals, which a conflict before any decision teaches.
    pub(crate) fn find_last(
        &mut self,
        core: &ClauseSearch,
        conflict: Reason,
    ) -> Result<(), AllocError> {
        self.find(core.scene(), conflict, &[])
    }

    // Finds the reasons of a clause that a conflict taught.
    fn find(&mut self, at: Scene<'_>, conflict: Reason, clause: &[Lit]) -> Result<(), AllocError> {
        self.is_needed.fill(false);
        self.is_kept.fill(false);
        self.values.fill(Value::Open);
        self.reasons.clear();
        for lit in clause {
            if let Some(is_kept) = self.is_kept.get_mut(lit.variable()) {
                *is_kept = true;
            }
            self.set(lit.opposite());
        }
        self.need(at, conflict, None)?;
        self.go_back(at)?;
        self.go_along(at, conflict)
    }

    // Sets a literal.
    fn set(&mut self, lit: Lit) {
        if let Some(value) = self.values.get_mut(lit.place()) {
            *value = Value::True;
        }
        if let Some(value) = self.values.get_mut(lit.opposite().place()) {
            *value = Value::False;
        }
    }

    // What is known of a literal.
    fn value(&self, lit: Lit) -> Value {
        self.values.get(lit.place()).copied().unwrap_or(Value::Open)
    }

    // Needs the causes of a reason.
    fn need(
        &mut self,
        at: Scene<'_>,
        reason: Reason,
        forced: Option<Lit>,
    ) -> Result<(), AllocError> {
        write_causes(at, reason, forced, &mut self.causes)?;
        for lit in &self.causes {
            if let Some(is_needed) = self.is_needed.get_mut(lit.variable()) {
                *is_needed = true;
            }
        }
        Ok(())
    }

    // Whether a literal is to be forced.
    fn is_forced(&self, lit: Lit) -> bool {
        let place = lit.variable();
        let is_needed = self.is_needed.get(place).copied().unwrap_or(false);
        is_needed && !self.is_kept.get(place).copied().unwrap_or(false)
    }

    // Needs the causes of each literal that is to be forced.
    fn go_back(&mut self, at: Scene<'_>) -> Result<(), AllocError> {
        for place in (0..at.trail.len()).rev() {
            if let Some(lit) = at.trail.at(place) {
                if self.is_forced(lit) {
                    self.need(at, at.trail.standing(lit).reason, Some(lit))?;
                }
            }
        }
        Ok(())
    }

    // Lists the reasons, as far as the first one that can't be met.
    fn go_along(&mut self, at: Scene<'_>, conflict: Reason) -> Result<(), AllocError> {
        for place in 0..at.trail.len() {
            if let Some(lit) = at.trail.at(place) {
                if self.is_forced(lit) && self.value(lit) != Value::True {
                    let reason = at.trail.standing(lit).reason;
                    self.reasons.push(reason)?;
                    if !self.force(at, reason, lit) {
                        return Ok(());
                    }
                }
            }
        }
        self.reasons.push(conflict)?;
        Ok(())
    }

    // Sets what a reason forces, and answers whether it can be met.
    fn force(&mut self, at: Scene<'_>, reason: Reason, lit: Lit) -> bool {
        match reason {
            Reason::Chosen => true,
            Reason::Goal => self.force_goal(at),
            Reason::Clause(number) => {
                let lits = at.clauses.lits(number);
                if lits.iter().all(|lit| self.value(*lit) == Value::False) {
                    return false;
                }
                self.set(lit);
                true
            }
        }
    }

    // The same of the goal, which may force several literals.
    fn force_goal(&mut self, at: Scene<'_>) -> bool {
        let mut slack = at.goal.room_beside(None);
        for term in at.goal.terms() {
            if self.value(term.lit) == Value::False {
                slack = slack.wrapping_sub(term.coefficient);
            }
        }
        if slack < 0 {
            return false;
        }
        for term in at.goal.terms() {
            if term.coefficient > slack && self.value(term.lit) == Value::Open {
                self.set(term.lit);
            }
        }
        true
    }
}
