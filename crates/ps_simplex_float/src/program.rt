//! The columns of a program and their costs.

mod added;
mod entering;

use crate::column::{Column, RowKind};
use crate::vectors::{copy, set};
use added::AddedColumn;
use std::alloc::{AllocError, Global};

/// What is minimised.
#[derive(Clone, Copy, PartialEq, Eq, Debug)]
pub enum Phase {
    /// The sum of the values of the artificial columns.
    One,
    /// The costs of the added columns at their values.
    Two,
}

/// A row of a program.
#[derive(Clone, Copy)]
struct Row {
    kind: RowKind,
    is_slack_basic: bool,
}

/// The rows and columns of a program.
#[derive(Drop)]
pub(crate) struct Program {
    alloc: Global,
    rows: Vec<Row>,
    added: Vec<AddedColumn>,
    phase: Phase,
}

impl Program {
    /// The program of rows without columns.
    pub(crate) fn new(alloc: Global, kinds: &[RowKind]) -> Result<Program, AllocError> {
        let mut rows = Vec::new(alloc);
        for kind in kinds {
            rows.push(Row {
                kind: *kind,
                is_slack_basic: false,
            })?;
        }
        Ok(Program {
            alloc,
            rows,
            added: Vec::new(alloc),
            phase: Phase::One,
        })
    }

    /// An equal program.
    pub(crate) fn copy(&self, alloc: Global) -> Result<Program, AllocError> {
        let mut added = Vec::new(alloc);
        for column in &self.added {
            added.push(column.copy(alloc)?)?;
        }
        Ok(Program {
            alloc,
            rows: self.rows.to_vec(alloc)?,
            added,
            phase: self.phase,
        })
    }

    /// Which costs are minimised.
    pub(crate) fn set_phase(&mut self, phase: Phase) {
        self.phase = phase;
    }

    /// Whether the artificial columns cost something.
    pub(crate) fn is_phase_one(&self) -> bool {
        self.phase == Phase::One
    }

    /// What a row asks.
    pub(crate) fn row_kind(&self, row: usize) -> Option<RowKind> {
        self.rows.get(row).map(|row| row.kind)
    }

    /// How many columns are added.
    pub(crate) fn columns(&self) -> usize {
        self.added.len()
    }

    /// Whether a column is one of the program: a row asks for no slack where it asks for equality.
    pub(crate) fn has(&self, column: Column) -> bool {
        match column {
            Column::Slack(row) => self.row_kind(row) == Some(RowKind::AtMost),
            Column::Artificial(row) | Column::NegativeArtificial(row) => row < self.rows.len(),
            Column::Added(number) => number < self.added.len(),
        }
    }

    /// Adds a column.
    pub(crate) fn add(&mut self, entries: &[f64], cost: f64) -> Result<(), AllocError> {
        let mut all = vec![in self.alloc; 0.0; self.rows.len()]?;
        copy(&mut all, entries);
        self.added.push(AddedColumn::new(all, cost))?;
        Ok(())
    }

    /// Sets the cost of an added column.
    pub(crate) fn set_cost(&mut self, number: usize, cost: f64) {
        if let Some(column) = self.added.get_mut(number) {
            column.cost = cost;
        }
    }

    /// Replaces the entries of the added columns in a row.
    pub(crate) fn replace_row(&mut self, row: usize, entries: &[f64]) {
        for (added, entry) in self.added.iter_mut().zip(entries) {
            added.set_entry(row, *entry);
        }
    }

    /// What a column costs in this phase.
    pub(crate) fn cost(&self, column: Column) -> f64 {
        match column {
            Column::Slack(_) => 0.0,
            Column::Artificial(_) | Column::NegativeArtificial(_) => match self.phase {
                Phase::One => 1.0,
                Phase::Two => 0.0,
            },
            Column::Added(number) => match self.phase {
                Phase::One => 0.0,
                Phase::Two => self.added.get(number).map_or(0.0, |added| added.cost),
            },
        }
    }

    /// The entries of an added column.
    pub(crate) fn entries(&self, number: usize) -> &[f64] {
        match self.added.get(number) {
            Some(added) => &added.entries,
            None => &[],
        }
    }

    /// Writes the entries of a column.
    pub(crate) fn write_entries(&self, column: Column, entries: &mut [f64]) {
        entries.fill(0.0);
        match column {
            Column::Slack(row) | Column::Artificial(row) => set(entries, row, 1.0),
            Column::NegativeArtificial(row) => set(entries, row, -1.0),
            Column::Added(number) => copy(entries, self.entries(number)),
        }
    }

    /// Writes the costs of columns.
    pub(crate) fn write_costs(&self, columns: &[Column], costs: &mut [f64]) {
        for (cost, column) in costs.iter_mut().zip(columns) {
            *cost = self.cost(*column);
        }
    }

    /// Notes whether a column is basic. Of artificial columns it isn't noted, since they don't come back.
    pub(crate) fn mark(&mut self, column: Column, is_basic: bool) {
        match column {
            Column::Slack(row) => {
                if let Some(row) = self.rows.get_mut(row) {
                    row.is_slack_basic = is_basic;
                }
            }
            Column::Artificial(_) | Column::NegativeArtificial(_) => {}
            Column::Added(number) => {
                if let Some(added) = self.added.get_mut(number) {
                    added.is_basic = is_basic;
                }
            }
        }
    }

    /// Notes that no column is basic.
    pub(crate) fn unmark_all(&mut self) {
        for row in self.rows.iter_mut() {
            row.is_slack_basic = false;
        }
        for added in self.added.iter_mut() {
            added.is_basic = false;
        }
    }

    /// The unit column that a row starts with, where the row lacks so much.
    fn first_column(&self, row: usize, lacking: f64) -> Column {
        if lacking < 0.0 {
            Column::NegativeArtificial(row)
        } else if self.has(Column::Slack(row)) {
            Column::Slack(row)
        } else {
            Column::Artificial(row)
        }
    }

    /// Writes the columns that a basis starts with: an added column, whose entry in the first row isn't
    /// 0, and unit columns for the other rows.
    pub(crate) fn write_first_columns(
        &self,
        first: usize,
        entries: &[f64],
        right: &[f64],
        columns: &mut [Column],
    ) {
        let share = first_of(right) / first_of(entries);
        let rows = right.iter().zip(entries).enumerate();
        for (column, (row, (right, entry))) in columns.iter_mut().zip(rows) {
            *column = self.first_column(row, right - share * entry);
        }
        if let Some(column) = columns.first_mut() {
            *column = Column::Added(first);
        }
    }

    /// What a column's value costs more than what it brings at the rows' prices.
    pub(crate) fn reduced_cost(&self, column: Column, duals: &[f64]) -> f64 {
        match column {
            Column::Slack(row) | Column::Artificial(row) => {
                self.cost(column) - duals.get(row).copied().unwrap_or(0.0)
            }
            Column::NegativeArtificial(row) => {
                self.cost(column) + duals.get(row).copied().unwrap_or(0.0)
            }
            Column::Added(number) => match self.added.get(number) {
                Some(added) => added.reduced_cost(self.cost(column), duals),
                None => 0.0,
            },
        }
    }
}

/// The first entry.
fn first_of(entries: &[f64]) -> f64 {
    entries.first().copied().unwrap_or(0.0)
}
