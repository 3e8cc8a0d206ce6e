//! Values rounded to small whole numbers.

use crate::about::About;
use crate::elimination::Elimination;
use crate::face::Valued;
use crate::limits::{COARSEST, FINER, LARGEST_VALUE, ROUNDINGS};
use crate::whole::WholeModel;
use ps_io::{List, NoMemory};
use ps_lifting::{Inverse, Solution, inverse_of, solve};
use std::alloc::Global;
use std::num::{nearest_i64_to_f64, saturating_f64_to_i64};

/// Values that are to meet some rows exactly: those of most worlds become multiples of a power of two, and
/// a small system is solved for the few others, one for each of the rows.
#[derive(Drop)]
pub(crate) struct Rounding {
    alloc: Global,
    valued: Vec<Valued>,
    /// The rows of the system, each of which is solved for a world.
    rows: Vec<usize>,
    choice: Elimination,
    entries: Vec<List<i64>>,
    inverse: Inverse,
}

// The values alone.
fn values_of(alloc: Global, valued: &[Valued]) -> Result<Vec<f64>, NoMemory> {
    let mut values = Vec::new(alloc);
    for it in valued {
        values.push(it.value)?;
    }
    Ok(values)
}

// The entries of a row, over its denominator.
fn equation_of(
    alloc: Global,
    about: About<'_>,
    row: usize,
    valued: &[Valued],
) -> Result<Vec<f64>, NoMemory> {
    let over = match about.relaxed.rows().get(row.wrapping_sub(1)) {
        Some(row) => row.denominator(),
        None => 1.0,
    };
    let mut equation = Vec::new(alloc);
    for it in valued {
        equation.push(nearest_i64_to_f64(about.entry(row, *it)) / over)?;
    }
    Ok(equation)
}

impl Rounding {
    /// Of worlds that are to meet the tight rows exactly. None where the system of those that are solved
    /// for isn't regular.
    pub(crate) fn new(
        alloc: Global,
        about: About<'_>,
        is_tight: &[bool],
        valued: Vec<Valued>,
    ) -> Result<Option<Rounding>, NoMemory> {
        let mut choice = Elimination::new(alloc, values_of(alloc, &valued)?)?;
        let mut rows = Vec::new(alloc);
        for (row, is_tight) in is_tight.iter().enumerate() {
            if *is_tight && choice.add(equation_of(alloc, about, row, &valued)?)? {
                rows.push(row)?;
            }
        }
        let mut entries = Vec::new(alloc);
        for row in &rows {
            let mut own = List::new(alloc);
            for unknown in choice.pivots() {
                if let Some(it) = valued.get(*unknown) {
                    own.push(about.entry(*row, *it))?;
                }
            }
            entries.push(own)?;
        }
        let Some(inverse) = inverse_of(alloc, &entries)? else {
            return Ok(None);
        };
        Ok(Some(Rounding {
            alloc,
            valued,
            rows,
            choice,
            entries,
            inverse,
        }))
    }

    /// The distribution of the coarsest rounding that meets all bounds.
    pub(crate) fn model(&self, about: About<'_>) -> Result<Option<WholeModel>, NoMemory> {
        let mut one = COARSEST;
        for _ in 0..ROUNDINGS {
            if let Some(whole) = self.model_over(about, one)? {
                return Ok(Some(whole));
            }
            one = one.saturating_mul(FINER);
        }
        Ok(None)
    }

    // The distribution where values are rounded to multiples of one over this.
    fn model_over(&self, about: About<'_>, one: i64) -> Result<Option<WholeModel>, NoMemory> {
        let Some(values) = self.rounded_values(one)? else {
            return Ok(None);
        };
        let Some(right) = self.right(about, one, &values)? else {
            return Ok(None);
        };
        let Some(solution) = solve(self.alloc, &self.entries, &self.inverse, &right)? else {
            return Ok(None);
        };
        let weights = self.weights(&values, &solution)?;
        if !about.meets(&self.valued, &weights) {
            return Ok(None);
        }
        Ok(Some(about.model_of(self.alloc, &self.valued, &weights)?))
    }

    // The values that aren't solved for, as multiples of one over this; 0 for all others. None where one
    // is too large.
    fn rounded_values(&self, one: i64) -> Result<Option<Vec<i64>>, NoMemory> {
        let mut values = Vec::new(self.alloc);
        for (unknown, it) in self.valued.iter().enumerate() {
            let size = it.value * nearest_i64_to_f64(one);
            if size > LARGEST_VALUE {
                return Ok(None);
            }
            values.push(if self.choice.is_solved(unknown) {
                0
            } else {
                saturating_f64_to_i64(size.round())
            })?;
        }
        Ok(Some(values))
    }

    // What the rounded values leave of each row.
    fn right(
        &self,
        about: About<'_>,
        one: i64,
        values: &[i64],
    ) -> Result<Option<Vec<i64>>, NoMemory> {
        let mut right = Vec::new(self.alloc);
        for row in &self.rows {
            let mut left = if *row == 0 { one as i128 } else { 0 };
            for (it, value) in self.valued.iter().zip(values) {
                let entry = about.entry(*row, *it) as i128;
                left = left.wrapping_sub(entry.wrapping_mul(*value as i128));
            }
            let Ok(left) = i64::try_from(left) else {
                return Ok(None);
            };
            right.push(left)?;
        }
        Ok(Some(right))
    }

    // The weights of the rounded values and of a solution, all over the solution's denominator.
    fn weights(&self, values: &[i64], solution: &Solution) -> Result<Vec<i128>, NoMemory> {
        let mut weights = Vec::new(self.alloc);
        for value in values {
            weights.push((*value as i128).saturating_mul(solution.denominator))?;
        }
        let numerators = solution.numerators.as_slice();
        for (unknown, numerator) in self.choice.pivots().iter().zip(numerators) {
            if let Some(weight) = weights.get_mut(*unknown) {
                *weight = *numerator;
            }
        }
        Ok(weights)
    }
}
