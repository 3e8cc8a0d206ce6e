//! The entries of a table by row and column.
ghost use Rattle.std.specs.Prelude.{◌≡◌, suc, ◌+◌, ◌*◌, ◌<◌, ◌≤◌, length};
ghost use Rattle.ps_table.specs.declared.limits.TheConstants.{MOST_ROWS};
ghost use Rattle.ps_table.specs.Tableau.{number_shown, IsShown};
ghost use Rattle.ps_table.specs.Grids.{IsGrid, ColumnFits, cell_in, cells_of, width};

use crate::cells::{cell, column_shown};
use crate::place::TableCol;
use ps_frac::Fraction;
use std::marker::Model;

/// The entries of a table: columns one after the other, the right side, the homes.
#[derive(Drop)]
pub(crate) struct Grid<'a> {
    rows: usize,
    cells: &'a [Fraction],
}

impl<'a> Model for Grid<'a> {
    ghost use Rattle.ps_table.specs.Grids.{GridCells, IsGrid, cells_of};

    ghost Value = { GridCells };

    ghost view = { λ g. cells_of g.rows g.cells.now };

    ghost invariant = { λ g. IsGrid (cells_of g.rows g.cells.now) };
}

impl<'a> Grid<'a> {
    /// The grid of columns of so many rows.
    pub(crate) fn of(rows: usize, cells: &'a [Fraction]) -> Grid<'a>
        requires few { rows ≤ MOST_ROWS }
        requires size { length cells.now ≡ suc rows * rows }
        ensures value { result ≡ cells_of rows cells.now }
    {
        Grid { rows, cells }
    }

    /// How many rows there are.
    pub(crate) fn rows(&self) -> usize
        ensures value { result ≡ self.now.rows }
        ensures grid { IsGrid self.now }
    {
        self.rows
    }

    /// How many columns there are, with the right side.
    pub(crate) fn width(&self) -> usize
        ensures value { result ≡ width self.now }
        ensures grid { IsGrid self.now }
    {
        1 + self.rows
    }

    /// The place of a row and a column among the cells.
    #[tactic(auto, using(crate::proofs::Columns::cell_within))]
    pub(crate) fn place(&self, row: usize, column: usize) -> usize
        requires row { row < self.now.rows }
        requires column { column < width self.now }
        ensures value { result ≡ column * self.now.rows + row }
        ensures within { result < length self.now.cells }
    {
        column * self.rows + row
    }

    /// The cell of a row and a column.
    #[tactic(auto, using(crate::proofs::Columns::cell_within))]
    pub(crate) fn cell(&self, row: usize, column: usize) -> Fraction
        requires row { row < self.now.rows }
        requires column { column < width self.now }
        ensures value { result ≡ cell_in self.now row column }
    {
        cell(self.cells, self.rows, row, column)
    }

    /// Each number of a column is below the limit of sizes: a law, no more than reads.
    pub(crate) fn column_fits(&self, column: usize)
        requires { column < width self.now }
        ensures { ColumnFits self.now column }
    {
        for row in 0..self.rows() {
            self.cell(row, column).fits();
        }
    }

    /// The column of a number, as a refusal names it.
    pub(crate) fn column_shown(&self, column: usize) -> TableCol
        requires column { column < width self.now }
        ensures number { number_shown self.now.rows result ≡ column }
        ensures shown { IsShown self.now.rows result }
    {
        column_shown(self.rows, column)
    }
}
