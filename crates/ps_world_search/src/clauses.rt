//! Clauses.

use crate::lit::Lit;
use crate::trail::{Reason, Trail, Value};
use std::alloc::{AllocError, Global};

/// Learned clauses of more literals aren't kept for further goals.
const MOST_KEPT_LITERALS: usize = 24;

/// So many learned clauses are kept for further goals at most, the last ones.
const MOST_KEPT: usize = 4_000;

/// Where a clause stands.
#[derive(Clone, Copy)]
struct Clause {
    start: usize,
    end: usize,
    /// Whether it was learned.
    is_learned: bool,
    /// Whether it follows from the goal.
    is_of_goal: bool,
}

/// Clauses by their numbers.
#[derive(Drop)]
pub(crate) struct Clauses {
    alloc: Global,
    lits: Vec<Lit>,
    all: Vec<Clause>,
}

impl Clauses {
    /// No clauses.
    pub(crate) fn new(alloc: Global) -> Clauses {
        Clauses {
            alloc,
            lits: Vec::new(alloc),
            all: Vec::new(alloc),
        }
    }

    /// How many there are.
    pub(crate) fn len(&self) -> usize {
        self.all.len()
    }

    /// Adds a clause, and answers its number.
    pub(crate) fn add(
        &mut self,
        lits: &[Lit],
        is_learned: bool,
        is_of_goal: bool,
    ) -> Result<u32, AllocError> {
        let start = self.lits.len();
        for lit in lits {
            self.lits.push(*lit)?;
        }
        let number = u32::try_from(self.all.len()).unwrap_or(u32::MAX);
        self.all.push(Clause {
            start,
            end: self.lits.len(),
            is_learned,
            is_of_goal,
        })?;
        Ok(number)
    }

    /// The literals of a clause; none where it isn't there.
    pub(crate) fn lits(&self, number: u32) -> &[Lit] {
        match self.all.get(number as usize) {
            Some(clause) => self.lits.get(clause.start..clause.end).unwrap_or(&[]),
            None => &[],
        }
    }

    /// The same, to put them in another order.
    #[inline]
    pub(crate) fn lits_mut(&mut self, number: u32) -> Option<&mut [Lit]> {
        let clause = self.all.get(number as usize).copied()?;
        self.lits.as_mut_slice().get_mut(clause.start..clause.end)
    }

    /// Whether a reason is the goal, or follows from it.
    pub(crate) fn rests_on_goal(&self, reason: Reason) -> bool {
        match reason {
            Reason::Chosen => false,
            Reason::Goal => true,
            Reason::Clause(number) => match self.all.get(number as usize) {
                Some(clause) => clause.is_of_goal,
                None => false,
            },
        }
    }

    // Whether a clause serves other goals, where so many learned ones are left.
    fn is_kept(&self, clause: Clause, left: usize) -> bool {
        let len = clause.end.saturating_sub(clause.start);
        let is_small = !clause.is_learned || (len <= MOST_KEPT_LITERALS && left <= MOST_KEPT);
        !clause.is_of_goal && is_small
    }

    /// The clauses that serve other goals, over what is known.
    pub(crate) fn without_goal(&self, trail: &Trail) -> Result<Clauses, AllocError> {
        let mut kept = Clauses::new(self.alloc);
        let mut left = self.all.len();
        let mut rest = Vec::new(self.alloc);
        for (number, clause) in (0..u32::MAX).zip(&self.all) {
            left = left.saturating_sub(1);
            if self.is_kept(*clause, left) && rest_of(self.lits(number), trail, &mut rest)? {
                kept.add(&rest, clause.is_learned, false)?;
            }
        }
        Ok(kept)
    }
}

// Writes the literals of a clause that are open, where none is true.
fn rest_of(lits: &[Lit], trail: &Trail, rest: &mut Vec<Lit>) -> Result<bool, AllocError> {
    rest.clear();
    for lit in lits {
        match trail.value(*lit) {
            Value::True => return Ok(false),
            Value::False => {}
            Value::Open => rest.push(*lit)?,
        }
    }
    Ok(true)
}
