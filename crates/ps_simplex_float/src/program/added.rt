//! An added column.

use crate::vectors::{dot, set};
use std::alloc::{AllocError, Global};

/// An added column.
#[derive(Drop)]
pub(super) struct AddedColumn {
    pub(super) entries: Vec<f64>,
    /// One over the length of the column with an entry 1 more.
    pub(super) scale: f64,
    pub(super) cost: f64,
    pub(super) is_basic: bool,
}

impl AddedColumn {
    /// A column that isn't basic.
    pub(super) fn new(entries: Vec<f64>, cost: f64) -> AddedColumn {
        let scale = scale_of(&entries);
        AddedColumn {
            entries,
            scale,
            cost,
            is_basic: false,
        }
    }

    /// An equal column.
    pub(super) fn copy(&self, alloc: Global) -> Result<AddedColumn, AllocError> {
        Ok(AddedColumn {
            entries: self.entries.to_vec(alloc)?,
            scale: self.scale,
            cost: self.cost,
            is_basic: self.is_basic,
        })
    }

    /// Sets an entry, where it is there.
    pub(super) fn set_entry(&mut self, row: usize, entry: f64) {
        set(&mut self.entries, row, entry);
        self.scale = scale_of(&self.entries);
    }

    /// What its value costs more than what it brings at the rows' prices.
    pub(super) fn reduced_cost(&self, cost: f64, duals: &[f64]) -> f64 {
        cost - dot(&self.entries, duals)
    }
}

/// One over the length of these entries with an entry 1 more.
fn scale_of(entries: &[f64]) -> f64 {
    1.0 / (1.0 + dot(entries, entries)).sqrt()
}
