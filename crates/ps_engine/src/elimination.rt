//! Which unknowns the equations of a system are solved for.

use crate::limits::{LEAST_ENTRY, LEAST_WEIGHED, SMALL_VALUE};
use ps_io::NoMemory;
use std::alloc::Global;

/// Gauss and Jordan's elimination: each equation that doesn't follow from those before it is solved for
/// one of the unknowns, that of the largest entry times its value, so that the unknowns that are solved
/// for have large values.
#[derive(Drop)]
pub(crate) struct Elimination {
    values: Vec<f64>,
    /// The equations, each with entry 1 at its own unknown, where all others have 0.
    equations: Vec<Vec<f64>>,
    /// The unknown of each equation.
    pivots: Vec<usize>,
    is_solved: Vec<bool>,
}

// Takes away a multiple of an equation.
fn take_away(target: &mut [f64], factor: f64, equation: &[f64]) {
    if factor != 0.0 {
        for (x, y) in target.iter_mut().zip(equation) {
            *x -= factor * y;
        }
    }
}

// An entry, or 0.
fn entry(equation: &[f64], unknown: usize) -> f64 {
    equation.get(unknown).copied().unwrap_or(0.0)
}

impl Elimination {
    /// Without equations, for unknowns of about these values.
    pub(crate) fn new(alloc: Global, values: Vec<f64>) -> Result<Elimination, NoMemory> {
        Ok(Elimination {
            equations: Vec::new(alloc),
            pivots: Vec::new(alloc),
            is_solved: vec![in alloc; false; values.len()]?,
            values,
        })
    }

    /// The unknowns that equations are solved for, in the order of these.
    pub(crate) fn pivots(&self) -> &[usize] {
        &self.pivots
    }

    /// Whether an equation is solved for an unknown.
    pub(crate) fn is_solved(&self, unknown: usize) -> bool {
        self.is_solved.get(unknown).copied().unwrap_or(false)
    }

    // The unknown that an equation is solved for.
    fn pivot_of(&self, equation: &[f64]) -> Option<usize> {
        let mut best = None;
        let mut most = LEAST_WEIGHED;
        let unknowns = equation.iter().zip(&self.values).zip(&self.is_solved);
        for (unknown, ((entry, value), is_solved)) in unknowns.enumerate() {
            let weighed = entry.abs() * (value + SMALL_VALUE).min(1.0);
            if !*is_solved && entry.abs() > LEAST_ENTRY && weighed > most {
                best = Some(unknown);
                most = weighed;
            }
        }
        best
    }

    /// Takes an equation in, and answers whether it is solved for an unknown: false where it follows from
    /// those before.
    pub(crate) fn add(&mut self, mut equation: Vec<f64>) -> Result<bool, NoMemory> {
        for (earlier, pivot) in self.equations.iter().zip(&self.pivots) {
            let factor = entry(&equation, *pivot);
            take_away(&mut equation, factor, earlier);
        }
        let Some(pivot) = self.pivot_of(&equation) else {
            return Ok(false);
        };
        let size = entry(&equation, pivot);
        for x in equation.iter_mut() {
            *x /= size;
        }
        for earlier in self.equations.iter_mut() {
            let factor = entry(earlier, pivot);
            take_away(earlier, factor, &equation);
        }
        if let Some(it) = self.is_solved.get_mut(pivot) {
            *it = true;
        }
        self.equations.push(equation)?;
        self.pivots.push(pivot)?;
        Ok(true)
    }
}
