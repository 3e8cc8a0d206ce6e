//! What is learned from a conflict.

use crate::causes::{Scene, write_causes};
use crate::lit::Lit;
use crate::order::Order;
use crate::trail::Reason;
use std::alloc::{AllocError, Global};

/// The clause that a conflict teaches, as of the first unique implication point (L. Zhang and others, 2001).
#[derive(Drop)]
pub(crate) struct Analysis {
    /// By variable.
    marks: Vec<bool>,
    /// How many of the marked literals of the last level are to be explained or kept.
    open: usize,
    /// The marked literals of lower levels.
    lits: Vec<Lit>,
    /// Those of them that don't follow from others.
    rest: Vec<Lit>,
    causes: Vec<Lit>,
    clause: Vec<Lit>,
    is_of_goal: bool,
}

impl Analysis {
    /// Nothing was learned of so many variables.
    pub(crate) fn new(alloc: Global, variables: usize) -> Result<Analysis, AllocError> {
        Ok(Analysis {
            marks: vec![in alloc; false; variables]?,
            open: 0,
            lits: Vec::new(alloc),
            rest: Vec::new(alloc),
            causes: Vec::new(alloc),
            clause: Vec::new(alloc),
            is_of_goal: false,
        })
    }

    /// The learned clause. The first literal is forced where the others are false, and the second was the
    /// last to become false.
    pub(crate) fn clause(&self) -> &[Lit] {
        &self.clause
    }

    /// Whether it follows from the goal.
    pub(crate) fn is_of_goal(&self) -> bool {
        self.is_of_goal
    }

    /// Learns a clause, and answers the level to go on from.
    pub(crate) fn learn(
        &mut self,
        at: Scene<'_>,
        order: &mut Order,
        conflict: Reason,
    ) -> Result<usize, AllocError> {
        self.marks.fill(false);
        self.open = 0;
        self.lits.clear();
        self.clause.clear();
        self.is_of_goal = false;
        self.mark_causes(at, order, conflict, None)?;
        let Some(last) = self.go_back(at, order)? else {
            return Ok(0);
        };
        order.end_conflict();
        self.shorten(at)?;
        self.clause.push(last.opposite())?;
        self.add_rest(at)
    }

    // Whether a literal's variable is marked.
    fn is_marked(&self, lit: Lit) -> bool {
        self.marks.get(lit.variable()).copied().unwrap_or(false)
    }

    // Goes back over the last level to the first literal that alone leads to the conflict.
    fn go_back(&mut self, at: Scene<'_>, order: &mut Order) -> Result<Option<Lit>, AllocError> {
        for place in (0..at.trail.len()).rev() {
            let Some(lit) = at.trail.at(place) else {
                return Ok(None);
            };
            if self.is_marked(lit) {
                if self.open <= 1 {
                    return Ok(Some(lit));
                }
                self.open = self.open.saturating_sub(1);
                let reason = at.trail.standing(lit).reason;
                self.mark_causes(at, order, reason, Some(lit))?;
            }
        }
        Ok(None)
    }

    // Marks the causes of a reason, beside the literal that it forces.
    fn mark_causes(
        &mut self,
        at: Scene<'_>,
        order: &mut Order,
        reason: Reason,
        forced: Option<Lit>,
    ) -> Result<(), AllocError> {
        self.is_of_goal = self.is_of_goal || at.clauses.rests_on_goal(reason);
        write_causes(at, reason, forced, &mut self.causes)?;
        for place in 0..self.causes.len() {
            if let Some(lit) = self.causes.get(place).copied() {
                self.mark(at, order, lit)?;
            }
        }
        Ok(())
    }

    // Marks a false literal.
    fn mark(&mut self, at: Scene<'_>, order: &mut Order, lit: Lit) -> Result<(), AllocError> {
        let standing = at.trail.standing(lit);
        if standing.level == 0 {
            self.is_of_goal = self.is_of_goal || standing.is_of_goal;
            return Ok(());
        }
        let Some(mark) = self.marks.get_mut(lit.variable()) else {
            return Ok(());
        };
        if *mark {
            return Ok(());
        }
        *mark = true;
        order.raise(lit);
        if standing.level == at.trail.level() {
            self.open = self.open.saturating_add(1);
        } else {
            self.lits.push(lit)?;
        }
        Ok(())
    }

    // Leaves out the literals that follow from others of the clause.
    fn shorten(&mut self, at: Scene<'_>) -> Result<(), AllocError> {
        self.rest.clear();
        for place in 0..self.lits.len() {
            if let Some(lit) = self.lits.get(place).copied() {
                if !self.follows(at, lit) {
                    self.rest.push(lit)?;
                }
            }
        }
        Ok(())
    }

    // Whether a literal is false because other literals of the clause are. Nothing more is to rest on the
    // goal by that.
    fn follows(&self, at: Scene<'_>, lit: Lit) -> bool {
        let reason = at.trail.standing(lit).reason;
        let Reason::Clause(number) = reason else {
            return false;
        };
        if at.clauses.rests_on_goal(reason) && !self.is_of_goal {
            return false;
        }
        for other in at.clauses.lits(number) {
            let standing = at.trail.standing(*other);
            let is_known = standing.level == 0 && (self.is_of_goal || !standing.is_of_goal);
            if other.variable() != lit.variable() && !is_known && !self.is_marked(*other) {
                return false;
            }
        }
        true
    }

    // Adds the literals of lower levels to the clause, the one of the greatest level first, and answers that
    // level.
    fn add_rest(&mut self, at: Scene<'_>) -> Result<usize, AllocError> {
        let mut level = 0;
        let mut highest = 0;
        for (place, lit) in self.rest.iter().enumerate() {
            let own = at.trail.standing(*lit).level;
            if own > level {
                level = own;
                highest = place;
            }
        }
        if let Some(lit) = self.rest.get(highest) {
            self.clause.push(*lit)?;
        }
        for (place, lit) in self.rest.iter().enumerate() {
            if place != highest {
                self.clause.push(*lit)?;
            }
        }
        Ok(level)
    }
}
