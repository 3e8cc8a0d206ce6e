//! The goal of a search.

use crate::lit::Lit;
use crate::trail::{Trail, Value};
use crate::variables::Variables;
use std::alloc::{AllocError, Global};

/// A literal that counts for the goal.
#[derive(Clone, Copy)]
pub(crate) struct Term {
    pub(crate) lit: Lit,
    pub(crate) coefficient: i128,
}

/// A sum of the coefficients of true literals, which is to be large enough.
#[derive(Drop)]
pub(crate) struct GoalSum {
    /// The largest coefficients first.
    terms: Vec<Term>,
    /// By the place of a literal.
    coefficients: Vec<i128>,
    /// By variable.
    sums: Vec<i128>,
    /// What the sum is where no literal is true.
    base: i128,
    /// What the literals sum to that may be left out.
    room: i128,
    /// The same without those that are false.
    slack: i128,
}

impl GoalSum {
    /// A sum that is always large enough.
    pub(crate) fn new(alloc: Global, variables: usize) -> Result<GoalSum, AllocError> {
        Ok(GoalSum {
            terms: Vec::new(alloc),
            coefficients: vec![in alloc; 0; variables.saturating_mul(2)]?,
            sums: vec![in alloc; 0; variables]?,
            base: 0,
            room: 0,
            slack: 0,
        })
    }

    /// The literals that count, the largest coefficients first.
    pub(crate) fn terms(&self) -> &[Term] {
        &self.terms
    }

    /// What the false literals of a reason sum to more than, where they show that a literal is true, or
    /// without a literal that the goal is missed.
    pub(crate) fn room_beside(&self, lit: Option<Lit>) -> i128 {
        match lit {
            Some(lit) => self.room.wrapping_sub(self.coefficient(lit)),
            None => self.room,
        }
    }

    /// Takes the weights of nodes. Answers whether each node that counts has a literal.
    pub(crate) fn set_weights(
        &mut self,
        variables: &Variables,
        weights: &[i128],
        base: i128,
    ) -> Result<bool, AllocError> {
        self.sums.fill(0);
        self.base = base;
        for (node, weight) in (0..u32::MAX).zip(weights) {
            if *weight != 0 {
                match variables.lit(node) {
                    Some(lit) => self.add(lit, *weight),
                    None => return Ok(false),
                }
            }
        }
        self.list_terms()?;
        Ok(true)
    }

    // Adds what a literal counts where it is true.
    fn add(&mut self, lit: Lit, weight: i128) {
        let change = if lit.value_wanted() {
            weight
        } else {
            self.base = self.base.wrapping_add(weight);
            weight.wrapping_neg()
        };
        if let Some(sum) = self.sums.get_mut(lit.variable()) {
            *sum = sum.wrapping_add(change);
        }
    }

    // Lists the literals that count.
    fn list_terms(&mut self) -> Result<(), AllocError> {
        self.terms.clear();
        self.coefficients.fill(0);
        for (variable, sum) in (0..u32::MAX).zip(&self.sums) {
            if *sum != 0 {
                let lit = Lit::new(variable, *sum > 0);
                let coefficient = sum.wrapping_abs();
                if *sum < 0 {
                    self.base = self.base.wrapping_add(*sum);
                }
                self.terms.push(Term { lit, coefficient })?;
                if let Some(place) = self.coefficients.get_mut(lit.place()) {
                    *place = coefficient;
                }
            }
        }
        self.terms
            .sort_by_key(|term| i128::MAX.wrapping_sub(term.coefficient))?;
        Ok(())
    }

    /// From now on the sum is to be at least so much.
    pub(crate) fn set_least(&mut self, trail: &Trail, least: i128) {
        let mut total: i128 = 0;
        let mut lost: i128 = 0;
        for term in &self.terms {
            total = total.wrapping_add(term.coefficient);
            if trail.value(term.lit) == Value::False {
                lost = lost.wrapping_add(term.coefficient);
            }
        }
        self.room = total.wrapping_sub(least.wrapping_sub(self.base));
        self.slack = self.room.wrapping_sub(lost);
    }

    // What a literal counts.
    fn coefficient(&self, lit: Lit) -> i128 {
        self.coefficients.get(lit.place()).copied().unwrap_or(0)
    }

    /// A literal has become true.
    #[inline]
    pub(crate) fn see(&mut self, lit: Lit) {
        self.slack = self.slack.wrapping_sub(self.coefficient(lit.opposite()));
    }

    /// A true literal has become open.
    #[inline]
    pub(crate) fn give_back(&mut self, lit: Lit) {
        self.slack = self.slack.wrapping_add(self.coefficient(lit.opposite()));
    }

    /// Whether the sum can't be large enough any more.
    pub(crate) fn is_missed(&self) -> bool {
        self.slack < 0
    }

    /// An open literal without which the sum can't be large enough.
    pub(crate) fn next_forced(&self, trail: &Trail) -> Option<Lit> {
        for term in &self.terms {
            if term.coefficient <= self.slack {
                return None;
            }
            if trail.value(term.lit) == Value::Open {
                return Some(term.lit);
            }
        }
        None
    }
}
