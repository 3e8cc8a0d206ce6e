//! The equations of a basis, in whole numbers.

use ps_float_pricing::{Aim, Relaxed, WorldPool};
use ps_io::{List, NoMemory};
use ps_lifting::{Inverse, Solution, inverse_of, solve};
use ps_simplex_float::Column;
use std::alloc::Global;

/// The equations of a basis: the rows without a basic unit column, and the basic worlds.
#[derive(Drop)]
pub(crate) struct BasisSystem {
    alloc: Global,
    /// Numbers of rows, from 0, that of the evidence.
    pub(crate) rows: Vec<usize>,
    /// Places of worlds in the pool.
    pub(crate) worlds: Vec<usize>,
    entries: Vec<List<i64>>,
    inverse: Inverse,
}

// The places of the basic worlds.
fn basic_worlds(alloc: Global, basis: &[Column]) -> Result<Vec<usize>, NoMemory> {
    let mut worlds = Vec::new(alloc);
    for column in basis {
        if let Column::Added(number) = *column {
            worlds.push(number)?;
        }
    }
    Ok(worlds)
}

// Whether a unit column of a row is basic.
fn has_unit(basis: &[Column], row: usize) -> bool {
    basis.iter().any(|column| match *column {
        Column::Slack(own) | Column::Artificial(own) | Column::NegativeArtificial(own) => own
            == row,
        Column::Added(_) => false,
    })
}

// The rows without a basic unit column.
fn tight_rows(alloc: Global, basis: &[Column]) -> Result<Vec<usize>, NoMemory> {
    let mut rows = Vec::new(alloc);
    for row in 0..basis.len() {
        if !has_unit(basis, row) {
            rows.push(row)?;
        }
    }
    Ok(rows)
}

// The entries of a row for worlds.
fn row_entries(
    alloc: Global,
    relaxed: &Relaxed,
    pool: &WorldPool,
    given: Option<u32>,
    row: usize,
    worlds: &[usize],
) -> Result<List<i64>, NoMemory> {
    let mut entries = List::new(alloc);
    for world in worlds {
        entries.push(relaxed.entry(row, given, pool.truth(*world)))?;
    }
    Ok(entries)
}

// Rows and columns exchanged.
fn transpose(
    alloc: Global,
    entries: &[List<i64>],
    width: usize,
) -> Result<Vec<List<i64>>, NoMemory> {
    let mut found = Vec::new(alloc);
    for place in 0..width {
        let mut row = List::new(alloc);
        for entry in entries {
            row.push(entry.get(place).copied().unwrap_or(0))?;
        }
        found.push(row)?;
    }
    Ok(found)
}

impl BasisSystem {
    /// The equations of a basis, where they are as many as the worlds and have one solution.
    pub(crate) fn new(
        alloc: Global,
        relaxed: &Relaxed,
        pool: &WorldPool,
        given: Option<u32>,
        basis: &[Column],
    ) -> Result<Option<BasisSystem>, NoMemory> {
        let worlds = basic_worlds(alloc, basis)?;
        let rows = tight_rows(alloc, basis)?;
        if rows.first().copied() != Some(0) || rows.len() != worlds.len() {
            return Ok(None);
        }
        let mut entries = Vec::new(alloc);
        for row in &rows {
            entries.push(row_entries(alloc, relaxed, pool, given, *row, &worlds)?)?;
        }
        let Some(inverse) = inverse_of(alloc, &entries)? else {
            return Ok(None);
        };
        Ok(Some(BasisSystem {
            alloc,
            rows,
            worlds,
            entries,
            inverse,
        }))
    }

    /// The values of the basic worlds.
    pub(crate) fn values(&self) -> Result<Option<Solution>, NoMemory> {
        let mut right = vec![in self.alloc; 0; self.rows.len()]?;
        if let Some(first) = right.first_mut() {
            *first = 1;
        }
        solve(self.alloc, &self.entries, &self.inverse, &right)
    }

    /// The prices of the rows for an aim.
    pub(crate) fn prices(&self, pool: &WorldPool, aim: Aim) -> Result<Option<Solution>, NoMemory> {
        let mut costs = Vec::new(self.alloc);
        for world in &self.worlds {
            costs.push(aim.cost(pool.truth(*world)))?;
        }
        let columns = transpose(self.alloc, &self.entries, self.worlds.len())?;
        let inverse = self.inverse.transpose(self.alloc)?;
        solve(self.alloc, &columns, &inverse, &costs)
    }
}
