//! Columns of worlds, which aren't kept: what the homes times a world's entries come to.
ghost use Rattle.std.specs.Prelude.{◌≡◌, suc, ◌<◌, IfOk, IfErr, IfSome};
ghost use Rattle.ps_table.specs.Places.{IsWideAt};
ghost use Rattle.ps_table.specs.Grids.{cell_in, IsNewColumn, GridColumnPlaces, part_in, sum_in};
ghost use Rattle.ps_table.specs.Grids.{IsProductNarrow, IsNarrowPart, IsCombined, IsMadeColumn};
ghost use Rattle.ps_table.specs.KeptCells.{IsColumnRefusal};

use crate::at_place::{plus_at, times_at};
use crate::error::TableError;
use crate::kept::{Cells, Kept};
use crate::place::{Place, WideAt};
use ps_frac::Fraction;

impl Kept {
    /// The home of row `m` in row `i`, times entry `m` of world `number`.
    fn product(&self, number: u32, entries: &[i64], i: usize, m: usize) -> Result<Fraction, WideAt>
        requires column { IsNewColumn self.now entries.now }
        requires i_in { i < self.now.rows }
        requires m_in { m < self.now.rows }
        ensures value { IfOk result (λ r. r ≡ part_in self.now entries.now i m) }
        ensures narrow { IfOk result (λ _. IsProductNarrow self.now entries.now i m) }
        ensures refused { IfErr result (IsWideAt (GridColumnPlaces self.now entries.now number i)) }
    {
        let place = Place::ColumnTimes {
            world: number,
            row: i as u32,
            home: m as u32,
        };
        let factor = Fraction::new(entries[m] as i128, 1);
        times_at(place, &self.entry(i, 1 + m), &factor)
    }

    /// The sum of the products before entry `m`, and of that of entry `m`; where the entry or its
    /// home's cell is 0, no operation is made.
    fn plus_product(
        &self,
        number: u32,
        entries: &[i64],
        sum: &Fraction,
        i: usize,
        m: usize,
    ) -> Result<Fraction, WideAt>
        requires column { IsNewColumn self.now entries.now }
        requires i_in { i < self.now.rows }
        requires m_in { m < self.now.rows }
        requires sum { sum.now ≡ sum_in self.now entries.now i m }
        ensures value { IfOk result (λ r. r ≡ sum_in self.now entries.now i (suc m)) }
        ensures narrow { IfOk result (λ _. IsNarrowPart (cell_in self.now) entries.now i m) }
        ensures refused { IfErr result (IsWideAt (GridColumnPlaces self.now entries.now number i)) }
    {
        if entries[m] == 0 || self.is_zero(i, 1 + m) {
            // Called for its clauses: a sum that fits isn't refused with 0.
            sum.fits();
            return Ok(*sum);
        }
        let product = self.product(number, entries, i, m)?;
        let place = Place::ColumnPlus {
            world: number,
            row: i as u32,
            home: m as u32,
        };
        plus_at(place, sum, &product)
    }

    /// Row `i` of the column of world `number`, added as fractions.
    fn combined_fractions(&self, number: u32, entries: &[i64], i: usize) -> Result<Fraction, WideAt>
        requires column { IsNewColumn self.now entries.now }
        requires i_in { i < self.now.rows }
        ensures combined { IfOk result (IsCombined self.now entries.now number i) }
        ensures refused { IfErr result (IsWideAt (GridColumnPlaces self.now entries.now number i)) }
    {
        let mut sum = Fraction::new(0, 1);
        for m in 0..self.rows() {
            sum = self.plus_product(number, entries, &sum, i, m)?;
        }
        Ok(sum)
    }

    /// Row `i` of the column of world `number`, where the cells are whole numbers and their sums
    /// stay small.
    fn combined_whole(&self, number: u32, entries: &[i64], i: usize) -> Option<Fraction>
        requires column { IsNewColumn self.now entries.now }
        requires i_in { i < self.now.rows }
        ensures combined { IfSome result (IsCombined self.now entries.now number i) }
    {
        match &self.cells {
            Cells::Whole(whole) => whole.cell_of(entries, i),
            Cells::Fractions(_) => None,
        }
    }

    /// Row `i` of the column of world `number`.
    pub(crate) fn combined_cell(
        &self,
        number: u32,
        entries: &[i64],
        i: usize,
    ) -> Result<Fraction, WideAt>
        requires column { IsNewColumn self.now entries.now }
        requires i_in { i < self.now.rows }
        ensures combined { IfOk result (IsCombined self.now entries.now number i) }
        ensures refused { IfErr result (IsWideAt (GridColumnPlaces self.now entries.now number i)) }
    {
        match self.combined_whole(number, entries, i) {
            Some(cell) => Ok(cell),
            None => self.combined_fractions(number, entries, i),
        }
    }

    /// The column of world `number`.
    pub(crate) fn combined_column(
        &self,
        number: u32,
        entries: &[i64],
    ) -> Result<Vec<Fraction>, TableError>
        requires column { IsNewColumn self.now entries.now }
        ensures made { IfOk result (λ v. IsMadeColumn self.now entries.now number v.items) }
        ensures refused { IfErr result (IsColumnRefusal self.now entries.now number) }
    {
        let mut made = Vec::new(self.alloc());
        for i in 0..self.rows() {
            let cell = self.combined_cell(number, entries, i)?;
            made.push(cell)?;
        }
        Ok(made)
    }
}
