//! Which column enters a basis.

use super::Program;
use crate::column::{Column, RowKind};
use crate::limits::SAME_RATIO;
use crate::vectors::dot;

impl Program {
    /// The column that improves most for its length, where one improves by more than this.
    pub(crate) fn entering(&self, least: f64, duals: &[f64]) -> Option<Column> {
        let mut best = Improving::none();
        self.offer_slacks(least, duals, &mut best);
        self.offer_added(least, duals, &mut best);
        best.column
    }

    /// Offers the slacks that improve by more than this.
    fn offer_slacks(&self, least: f64, duals: &[f64], best: &mut Improving) {
        for (number, (row, dual)) in self.rows.iter().zip(duals).enumerate() {
            if row.kind == RowKind::AtMost && !row.is_slack_basic && *dual > least {
                best.offer(Column::Slack(number), *dual);
            }
        }
    }

    /// Offers the added columns that improve by more than this.
    fn offer_added(&self, least: f64, duals: &[f64], best: &mut Improving) {
        for (number, added) in self.added.iter().enumerate() {
            if !added.is_basic {
                let cost = if self.is_phase_one() { 0.0 } else { added.cost };
                let gain = -added.reduced_cost(cost, duals);
                if gain > least {
                    best.offer(Column::Added(number), gain * added.scale);
                }
            }
        }
    }

    /// The column whose reduced cost is least for the size of its entry in a row, of the entries below
    /// the negative of this. The row is given by that of the inverse.
    pub(crate) fn entering_in_row(
        &self,
        least: f64,
        row_of_inverse: &[f64],
        duals: &[f64],
    ) -> Option<Column> {
        let mut best = Blocking::none();
        self.offer_slacks_in_row(least, row_of_inverse, duals, &mut best);
        self.offer_added_in_row(least, row_of_inverse, duals, &mut best);
        best.column
    }

    /// Offers the slacks whose entry in the row is below the negative of this.
    fn offer_slacks_in_row(
        &self,
        least: f64,
        row_of_inverse: &[f64],
        duals: &[f64],
        best: &mut Blocking,
    ) {
        for (number, (row, entry)) in self.rows.iter().zip(row_of_inverse).enumerate() {
            if row.kind == RowKind::AtMost && !row.is_slack_basic && *entry < -least {
                let column = Column::Slack(number);
                best.offer(column, self.reduced_cost(column, duals), -entry);
            }
        }
    }

    /// Offers the added columns whose entry in the row is below the negative of this.
    fn offer_added_in_row(
        &self,
        least: f64,
        row_of_inverse: &[f64],
        duals: &[f64],
        best: &mut Blocking,
    ) {
        for (number, added) in self.added.iter().enumerate() {
            if !added.is_basic {
                let entry = dot(row_of_inverse, &added.entries);
                if entry < -least {
                    let column = Column::Added(number);
                    best.offer(column, self.reduced_cost(column, duals), -entry);
                }
            }
        }
    }
}

/// The column that improves most, of those offered so far.
#[derive(Clone, Copy)]
struct Improving {
    column: Option<Column>,
    gain: f64,
}

impl Improving {
    /// No column yet.
    fn none() -> Improving {
        Improving {
            column: None,
            gain: 0.0,
        }
    }

    /// Takes a column in where it improves more.
    fn offer(&mut self, column: Column, gain: f64) {
        if gain > self.gain {
            self.column = Some(column);
            self.gain = gain;
        }
    }
}

/// The column that a dual step takes, of those offered so far.
#[derive(Clone, Copy)]
struct Blocking {
    column: Option<Column>,
    ratio: f64,
    size: f64,
}

impl Blocking {
    /// No column yet.
    fn none() -> Blocking {
        Blocking {
            column: None,
            ratio: f64::MAX,
            size: 0.0,
        }
    }

    /// Takes a column in where its ratio is less, or about the same with a larger entry.
    fn offer(&mut self, column: Column, reduced_cost: f64, size: f64) {
        let ratio = reduced_cost.max(0.0) / size;
        let is_less = ratio < self.ratio - SAME_RATIO;
        let is_larger = ratio < self.ratio + SAME_RATIO && size > self.size;
        if is_less || is_larger {
            self.column = Some(column);
            self.ratio = ratio;
            self.size = size;
        }
    }
}
