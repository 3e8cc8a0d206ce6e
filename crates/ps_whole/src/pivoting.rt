//! Tables after a pivot.
ghost use Rattle.std.specs.Prelude.{◌<◌};
ghost use Rattle.std.specs.Prelude.{IfOk, IfSome, unsigned_abs};
ghost use Rattle.ps_whole.specs.Whole.{IfAll};
ghost use Rattle.ps_whole.specs.Pivots.{IsPivotOf, IsPivoted, IsNarrowed, ArePivotsNarrow};
ghost use Rattle.ps_whole.specs.Pivots.{HasRow, HasNextRow, IsPivotedTo, ArePivoted, IsSmallContent};

use crate::change::RowChange;
use crate::limits::LIMIT;
use crate::rows::Whole;
use ps_frac::{signed_quotient, size_quotient};
use ps_io::NoMemory;

/// A number that is small enough to be kept.
pub(crate) fn narrow(number: i128) -> Option<i64>
    ensures value { IfSome result (IsNarrowed number) }
{
    if number.unsigned_abs() < LIMIT {
        return Some(number as i64);
    }
    None
}

impl Whole {
    /// Appends the numbers of a row after a pivot, and tells whether all of them are small enough.
    fn push_numbers(
        &self,
        p: usize,
        i: usize,
        change: &RowChange,
        made: &mut Vec<i64>,
    ) -> Result<bool, NoMemory>
        requires own { p < self.now.rows }
        requires row { i < self.now.rows }
        requires change { IsSmallContent self.now p i change.now }
        ensures all { IfAll result (HasRow self.now p i change.now made.old.items made.new.items) }
    {
        for column in 0..self.width() {
            let raw = self.raw(p, i, change.times, change.less, column);
            match narrow(signed_quotient(raw, change.by)) {
                Some(number) => made.push(number)?,
                None => return Ok(false),
            }
        }
        Ok(true)
    }

    /// Appends the numbers of a row after a pivot, which may be those before it, and tells whether
    /// all of them are small enough.
    fn push_changed(
        &self,
        p: usize,
        i: usize,
        change: &RowChange,
        made: &mut Vec<i64>,
    ) -> Result<bool, NoMemory>
        requires own { p < self.now.rows }
        requires row { i < self.now.rows }
        requires change { IsSmallContent self.now p i change.now }
        ensures all { IfAll result (HasRow self.now p i change.now made.old.items made.new.items) }
    {
        if change.keeps() {
            // Called for its clauses: the numbers are small.
            self.rows();
            self.push_copied(i, made)?;
            return Ok(true);
        }
        self.push_numbers(p, i, change, made)
    }

    /// Appends a row after a pivot, and tells whether all of its numbers are small enough.
    fn push_row(
        &self,
        p: usize,
        column: &[i64],
        i: usize,
        numbers: &mut Vec<i64>,
        unders: &mut Vec<u64>,
    ) -> Result<bool, NoMemory>
        requires pivot { IsPivotOf self.now p column.now }
        requires row { i < self.now.rows }
        requires before { IsPivotedTo self.now p column.now i numbers.old.items unders.old.items }
        ensures all { IfAll result
            (HasNextRow self.now p column.now i numbers.new.items unders.new.items) }
    {
        let change = self.change(p, column, i);
        let under = size_quotient(change.base, change.by);
        if !(under < LIMIT) {
            return Ok(false);
        }
        if !self.push_changed(p, i, &change, numbers)? {
            return Ok(false);
        }
        unders.push(under as u64)?;
        Ok(true)
    }

    /// Appends the rows after a pivot, and tells whether all of their numbers are small enough.
    fn push_rows(
        &self,
        p: usize,
        column: &[i64],
        numbers: &mut Vec<i64>,
        unders: &mut Vec<u64>,
    ) -> Result<bool, NoMemory>
        requires pivot { IsPivotOf self.now p column.now }
        requires before { IsPivotedTo self.now p column.now 0 numbers.old.items unders.old.items }
        ensures all { IfAll result
            (ArePivoted self.now p column.now numbers.new.items unders.new.items) }
    {
        for i in 0..self.rows() {
            if !self.push_row(p, column, i, numbers, unders)? {
                return Ok(false);
            }
        }
        Ok(true)
    }

    /// The table after a pivot in row `p`, by the numbers of the column that enters, if its numbers
    /// are small enough.
    pub fn after_pivot(&self, p: usize, column: &[i64]) -> Result<Option<Whole>, NoMemory>
        requires pivot { IsPivotOf self.now p column.now }
        ensures pivoted { IfOk result (λ made. IfSome made (IsPivoted self.now p column.now)) }
    {
        let mut numbers = Vec::with_capacity(self.alloc, self.numbers.len())?;
        let mut unders = Vec::with_capacity(self.alloc, self.rows)?;
        if !self.push_rows(p, column, &mut numbers, &mut unders)? {
            return Ok(None);
        }
        Ok(Some(Whole {
            alloc: self.alloc,
            rows: self.rows,
            width: self.width,
            numbers,
            unders,
        }))
    }

    /// No operation on the entries of a pivot is too large: a law, no more than a read.
    pub fn pivots_are_narrow(&self, p: usize, column: &[i64])
        requires pivot { IsPivotOf self.now p column.now }
        ensures narrow { ArePivotsNarrow self.now p column.now }
    {
        self.rows();
    }
}
