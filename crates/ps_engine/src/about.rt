//! What the distributions of a program are about.

use crate::face::Valued;
use crate::limits::LARGEST_TOTAL;
use crate::whole::WholeModel;
use ps_float_pricing::{Aim, Relaxed, WorldPool};
use ps_io::NoMemory;
use std::alloc::Global;

/// What the distributions of a program are about: its rows, its worlds, the evidence of row 0, and what is
/// asked.
#[derive(Clone, Copy)]
pub(crate) struct About<'a> {
    pub(crate) relaxed: &'a Relaxed,
    pub(crate) pool: &'a WorldPool,
    pub(crate) given: Option<u32>,
    pub(crate) aim: Aim,
}

// Whether no weight is below 0, and their sum is small.
fn are_small(weights: &[i128]) -> bool {
    let mut total: i128 = 0;
    for weight in weights {
        if *weight < 0 {
            return false;
        }
        total = total.saturating_add(*weight);
    }
    total <= LARGEST_TOTAL
}

impl<'a> About<'a> {
    /// The entry of a row for a world.
    pub(crate) fn entry(self, row: usize, valued: Valued) -> i64 {
        self.relaxed
            .entry(row, self.given, self.pool.truth(valued.place))
    }

    // The sum of a row's entries, each times its world's weight; none where that is past 128 bits.
    fn sum(self, row: usize, valued: &[Valued], weights: &[i128]) -> Option<i128> {
        let mut sum: i128 = 0;
        for (it, weight) in valued.iter().zip(weights) {
            let entry = self.entry(row, *it) as i128;
            sum = sum.checked_add(entry.checked_mul(*weight)?)?;
        }
        Some(sum)
    }

    // Whether weights meet a row of a bound, by its number from 0.
    fn meets_row(self, number: usize, valued: &[Valued], weights: &[i128]) -> bool {
        let is_equation = match self.relaxed.rows().get(number) {
            Some(row) => row.is_equation(),
            None => false,
        };
        match self.sum(number.saturating_add(1), valued, weights) {
            Some(sum) => sum == 0 || (sum < 0 && !is_equation),
            None => false,
        }
    }

    /// Whether weights are those of a distribution that is small and meets each bound, and whose evidence
    /// isn't impossible.
    pub(crate) fn meets(self, valued: &[Valued], weights: &[i128]) -> bool {
        let rows = self.relaxed.rows().len();
        are_small(weights)
            && self
                .sum(0, valued, weights)
                .is_some_and(|evidence| evidence > 0)
            && (0..rows).all(|number| self.meets_row(number, valued, weights))
    }

    /// The distribution that gives worlds these weights.
    pub(crate) fn model_of(
        self,
        alloc: Global,
        valued: &[Valued],
        weights: &[i128],
    ) -> Result<WholeModel, NoMemory> {
        let mut whole = WholeModel::new(alloc);
        for (it, weight) in valued.iter().zip(weights) {
            if *weight > 0 {
                if let Some(member) = self.pool.members().get(it.place) {
                    whole.add(alloc, self.aim, member, *weight)?;
                }
            }
        }
        Ok(whole)
    }
}
