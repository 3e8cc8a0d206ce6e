//! A linear program with a basis.
ghost use Rattle.std.specs.Prelude.{◌<◌, ◌≤◌, length};
ghost use Rattle.ps_simplex_float.specs.declared.limits.TheConstants.{MOST_ROWS};

mod cleaning;
mod inverting;
mod reading;
mod stepping;

use crate::basis::Basis;
use crate::column::{Column, RowKind};
use crate::draw::Draw;
use crate::ending::Ending;
use crate::limits::{FEASIBLE, MOST_ROWS, MOST_UPDATES};
use crate::program::{Phase, Program};
use crate::vectors::copy;
use std::alloc::{AllocError, Global};
use stepping::Step;

/// A linear program with a basis: its columns take values of at least 0, so that the sums of the rows
/// are as the rows ask, and the costs are least.
///
/// Rows count from 0, added columns too. The inverse of the basis is kept dense and brought up to date
/// with each pivot; after 64 pivots it is made afresh. Method: the revised simplex method, G. B. Dantzig
/// 1951.
///
/// Where a call of `start`, `start_at`, `reset` or `replace_row` answers false, or one that makes pivots
/// finds the numbers unstable, the values and duals are of no use until one of the first four answers
/// true. All other calls stay safe.
#[derive(Drop)]
pub struct Simplex {
    program: Program,
    basis: Basis,
    /// The right side, and the same with what was perturbed.
    target: Vec<f64>,
    right: Vec<f64>,
    duals: Vec<f64>,
    /// A column's entries, and the same in terms of the basic columns.
    entries: Vec<f64>,
    direction: Vec<f64>,
    /// The columns that are to be basic.
    chosen: Vec<Column>,
    draw: Draw,
    is_perturbed: bool,
    degenerate: u32,
    updates: u32,
    pivots: u64,
}

impl Simplex {
    /// The program of rows with their right sides, without added columns, in phase one. Where the right
    /// sides are fewer than the rows, the others are 0.
    pub fn new(alloc: Global, kinds: &[RowKind], right: &[f64]) -> Result<Simplex, AllocError>
        requires some { 0 < length kinds.now }
        requires few { length kinds.now ≤ MOST_ROWS }
    {
        let mut target = vec![in alloc; 0.0; kinds.len()]?;
        copy(&mut target, right);
        Ok(Simplex {
            program: Program::new(alloc, kinds)?,
            basis: Basis::new(alloc, kinds.len())?,
            right: target.to_vec(alloc)?,
            target,
            duals: vec![in alloc; 0.0; kinds.len()]?,
            entries: vec![in alloc; 0.0; kinds.len()]?,
            direction: vec![in alloc; 0.0; kinds.len()]?,
            chosen: vec![in alloc; Column::Artificial(0); kinds.len()]?,
            draw: Draw::new(),
            is_perturbed: false,
            degenerate: 0,
            updates: MOST_UPDATES,
            pivots: 0,
        })
    }

    /// An equal program at an equal basis.
    pub fn copy(&self, alloc: Global) -> Result<Simplex, AllocError> {
        Ok(Simplex {
            program: self.program.copy(alloc)?,
            basis: self.basis.copy(alloc)?,
            target: self.target.to_vec(alloc)?,
            right: self.right.to_vec(alloc)?,
            duals: self.duals.to_vec(alloc)?,
            entries: self.entries.to_vec(alloc)?,
            direction: self.direction.to_vec(alloc)?,
            chosen: self.chosen.to_vec(alloc)?,
            draw: self.draw,
            is_perturbed: self.is_perturbed,
            degenerate: self.degenerate,
            updates: self.updates,
            pivots: self.pivots,
        })
    }

    /// Adds a column, whose number is how many were added before. Entries past the rows aren't read, and
    /// those that lack are 0. The basis stays as it is.
    pub fn add_column(&mut self, entries: &[f64], cost: f64) -> Result<(), AllocError> {
        self.program.add(entries, cost)
    }

    /// Sets the cost of an added column in phase two. No change where there is no such column.
    pub fn set_cost(&mut self, number: usize, cost: f64) {
        self.program.set_cost(number, cost);
    }

    /// Sets which costs are minimised.
    pub fn set_phase(&mut self, phase: Phase) {
        self.program.set_phase(phase);
    }

    /// Makes an added column basic in row 0, where its entry isn't 0, and in each other row a unit
    /// column, so that the values are at least 0 where that of the added one is: the slack where it may
    /// be, else an artificial column. The right side is that without perturbation. False where that
    /// can't be inverted.
    pub fn start(&mut self, first: usize) -> bool {
        self.program
            .write_entries(Column::Added(first), &mut self.entries);
        self.program
            .write_first_columns(first, &self.entries, &self.target, &mut self.chosen);
        self.start_at_chosen()
    }

    /// Makes these columns basic, one for each row, at the right side without perturbation. False, and
    /// the basis stays as it is, where they are not as many as the rows, or one is no column of the
    /// program; false too where they can't be inverted. The values may be below 0: `clean` brings them
    /// back.
    pub fn start_at(&mut self, columns: &[Column]) -> bool {
        if columns.len() != self.chosen.len() || !columns.iter().all(|c| self.program.has(*c)) {
            return false;
        }
        copy(&mut self.chosen, columns);
        self.start_at_chosen()
    }

    /// The same with the columns that are chosen.
    fn start_at_chosen(&mut self) -> bool {
        self.basis.set_columns(&self.chosen);
        self.program.unmark_all();
        for column in &self.chosen {
            self.program.mark(*column, true);
        }
        self.restore()
    }

    /// Goes to the least cost at a basis whose values are at least 0, by so many pivots at most.
    ///
    /// The column that enters is the one of the least reduced cost over the square root of 1 and the
    /// squares of its entries, of those below -1e-9. The row that it takes is found in two passes: first
    /// how far the column may rise with each value let fall to -1e-9, then of the rows that block so
    /// early the one of the largest entry, of those above 1e-8 (P. M. J. Harris, "Pivot selection methods
    /// of the Devex LP code", 1973); artificial columns count four times, and in phase two they leave
    /// first where the entry is above 1e-7. After more than 20 pivots in a row that raise a column by
    /// less than 1e-10 the values are perturbed.
    ///
    /// `Optimal`: no reduced cost is below -1e-9. The values may be those of a perturbed right side:
    /// `clean` follows. `Unbounded`: no row blocks the column that enters, with an inverse made afresh.
    /// `OutOfPivots`: the pivots are made. `Unstable`: the basis can't be inverted.
    pub fn minimise(&mut self, most_pivots: u64) -> Ending {
        for _ in 0..most_pivots {
            self.find_duals();
            let Some(column) = self.program.entering(FEASIBLE, &self.duals) else {
                return Ending::Optimal;
            };
            match self.enter(column) {
                Step::Made => {}
                Step::Unblocked => {
                    if self.updates == 0 {
                        return Ending::Unbounded;
                    }
                    if !self.refactor() {
                        return Ending::Unstable;
                    }
                }
                Step::Singular => return Ending::Unstable,
            }
        }
        Ending::OutOfPivots
    }
}
