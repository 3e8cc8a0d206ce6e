//! The rows of a table.
ghost use Rattle.std.specs.Prelude.{◌≡◌, ◌+◌, ◌*◌, ◌<◌, ◌^◌};
ghost use Rattle.std.specs.Prelude.{IfOk, unsigned_abs};
ghost use Rattle.ps_whole.specs.Whole.{WholeCells, IsWhole, number_at, under_at, whole_at};
ghost use Rattle.ps_whole.specs.Whole.{numbers_of};

use ps_frac::Fraction;
use ps_io::NoMemory;
use std::alloc::Global;
use std::marker::Model;

/// The rows of a table, one after the other, and their denominators.
#[derive(Drop)]
pub struct Whole {
    pub(crate) alloc: Global,
    pub(crate) rows: usize,
    pub(crate) width: usize,
    pub(crate) numbers: Vec<i64>,
    pub(crate) unders: Vec<u64>,
}

impl Model for Whole {
    ghost use Rattle.ps_whole.specs.Whole.{WholeCells, IsWhole};

    ghost Value = { WholeCells };

    ghost view = { λ t. record {
      rows = t.rows;
      width = t.width;
      numbers = t.numbers.items;
      unders = t.unders.items;
    } };

    ghost invariant = { λ t. IsWhole (record {
      rows = t.rows;
      width = t.width;
      numbers = t.numbers.items;
      unders = t.unders.items;
    }) };
}

impl Whole {
    /// How many rows there are.
    pub(crate) fn rows(&self) -> usize
        ensures value { result ≡ self.now.rows }
        ensures whole { IsWhole self.now }
    {
        self.rows
    }

    /// How many columns there are.
    pub(crate) fn width(&self) -> usize
        ensures value { result ≡ self.now.width }
        ensures whole { IsWhole self.now }
    {
        self.width
    }

    /// The number of a row in a column.
    pub fn number(&self, row: usize, column: usize) -> i64
        requires row { row < self.now.rows }
        requires column { column < self.now.width }
        ensures value { result ≡ number_at self.now row column }
        ensures small { unsigned_abs result < 2 ^ 62 }
    {
        self.numbers[row * self.width + column]
    }

    /// The denominator of a row.
    pub(crate) fn under(&self, row: usize) -> u64
        requires row { row < self.now.rows }
        ensures value { result ≡ under_at self.now row }
        ensures positive { 0 < result }
        ensures small { result < 2 ^ 62 }
    {
        self.unders[row]
    }

    /// The numbers of a row.
    pub(crate) fn row_numbers(&self, row: usize) -> &[i64]
        requires row { row < self.now.rows }
        ensures numbers { result.now ≡ numbers_of self.now row }
    {
        let start = row * self.width;
        &self.numbers[start..start + self.width]
    }

    /// The entry of a row in a column.
    pub fn entry(&self, row: usize, column: usize) -> Fraction
        requires row { row < self.now.rows }
        requires column { column < self.now.width }
        ensures value { result ≡ whole_at self.now row column }
    {
        Fraction::new(self.number(row, column) as i128, self.under(row) as i128)
    }

    /// Equal rows.
    pub fn copy(&self) -> Result<Whole, NoMemory>
        ensures { IfOk result (λ rows. rows ≡ self.now) }
    {
        Ok(Whole {
            alloc: self.alloc,
            rows: self.rows,
            width: self.width,
            numbers: self.numbers.as_slice().to_vec(self.alloc)?,
            unders: self.unders.as_slice().to_vec(self.alloc)?,
        })
    }
}
