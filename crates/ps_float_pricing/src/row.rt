//! The bounds of a problem: rows, and certainties.

use crate::truth::{is_given, is_true};
use ps_climb::Demand;
use ps_meaning::Side;
use std::alloc::{AllocError, Global};
use std::num::nearest_i64_to_f64;

/// A bound that each world must meet: where its condition is true, so is its formula, or where it
/// isn't to be true, its formula and condition are never true together.
#[derive(Clone, Copy, Debug)]
pub struct Certainty {
    /// The number of the bound, from 0.
    pub number: usize,
    /// The node of formula and condition together.
    pub both: u32,
    /// The node of the condition, if there is one.
    pub given: Option<u32>,
    /// Whether the formula is to be true.
    pub is_true: bool,
}

impl Certainty {
    /// Whether a world meets it.
    pub fn is_met(&self, truth: &[bool]) -> bool {
        if self.is_true {
            !is_given(truth, self.given) || is_true(truth, self.both)
        } else {
            !is_true(truth, self.both)
        }
    }

    /// What it demands of a world that a local search looks for.
    pub(crate) fn demand(&self) -> Demand {
        match self.given {
            _ if !self.is_true => Demand::False(self.both),
            Some(given) => Demand::Implies(given, self.both),
            None => Demand::True(self.both),
        }
    }
}

/// What counts in a row where a node is true.
#[derive(Clone, Copy, Debug)]
pub struct RowTerm {
    /// The node.
    pub node: u32,
    /// The number that counts, turned as the row is.
    pub number: i64,
    /// The same over the row's denominator.
    pub share: f64,
}

/// A bound that is a row of the program. Its sum over the worlds is to be 0, or at most 0: at-least
/// bounds are turned.
#[derive(Drop)]
pub struct Row {
    /// The number of the bound, from 0.
    pub number: usize,
    side: Side,
    base: i64,
    terms: Vec<RowTerm>,
    denominator: f64,
}

// 1, or -1 where a bound of this side is turned.
fn sign_of(side: Side) -> i64 {
    if side == Side::AtLeast { -1 } else { 1 }
}

// The greatest size that a row has in a world at most: that of its numbers above 0 together, or of
// those below. Of the row of a plain bound it is the denominator of its value.
fn greatest_size(row: &ps_problem::Row) -> i64 {
    let mut above = row.base.max(0);
    let mut below = row.base.min(0);
    for term in row.terms.as_slice() {
        above = above.wrapping_add(term.1.max(0));
        below = below.wrapping_add(term.1.min(0));
    }
    above.max(below.wrapping_neg())
}

impl Row {
    /// The row of a bound of a number, from 0. Numbers that are 0 are left out.
    pub(crate) fn new(
        alloc: Global,
        number: usize,
        row: &ps_problem::Row,
    ) -> Result<Row, AllocError> {
        let sign = sign_of(row.side);
        let denominator = nearest_i64_to_f64(greatest_size(row).max(1));
        let mut terms = Vec::new(alloc);
        for term in row.terms.as_slice() {
            let turned = sign.wrapping_mul(term.1);
            if turned != 0 {
                terms.push(RowTerm {
                    node: term.0,
                    number: turned,
                    share: nearest_i64_to_f64(turned) / denominator,
                })?;
            }
        }
        Ok(Row {
            number,
            side: row.side,
            base: sign.wrapping_mul(row.base),
            terms,
            denominator,
        })
    }

    /// Whether its sum is to be exactly 0.
    pub fn is_equation(&self) -> bool {
        self.side == Side::Exactly
    }

    /// 1, or -1 where the bound is turned.
    pub fn sign(&self) -> i64 {
        sign_of(self.side)
    }

    /// The number that counts in each world, turned as the row is.
    pub fn base(&self) -> i64 {
        self.base
    }

    /// What counts where nodes are true.
    pub fn terms(&self) -> &[RowTerm] {
        &self.terms
    }

    /// Its entry for a world: the base, and the numbers of the terms whose nodes are true.
    pub fn entry(&self, truth: &[bool]) -> i64 {
        let mut sum = self.base;
        for term in &self.terms {
            if is_true(truth, term.node) {
                sum = sum.wrapping_add(term.number);
            }
        }
        sum
    }

    /// What its entries are over where they are floats: no entry is larger.
    pub fn denominator(&self) -> f64 {
        self.denominator
    }

    /// The base over the denominator.
    pub fn base_share(&self) -> f64 {
        nearest_i64_to_f64(self.base) / self.denominator
    }
}
