//! Cells of columns that stand one after the other, and the numbers of columns.
ghost use Rattle.std.specs.Prelude.{◌≡◌, ℕ, suc, ◌+◌, ◌*◌, ◌<◌, ◌≤◌, length};
ghost use Rattle.ps_table.specs.Tableau.{number_in, number_shown, IsInside, IsShown, cell_at};
ghost use Rattle.ps_table.specs.declared.limits.TheConstants.{MOST_ROWS};

use crate::col::Col;
use crate::place::TableCol;
use ps_frac::Fraction;

/// Row `row` of column `column`, in columns of `rows` rows.
pub(crate) fn cell(cells: &[Fraction], rows: usize, row: usize, column: usize) -> Fraction
    requires { column * rows + row < length cells.now }
    ensures value { result ≡ cell_at rows cells.now row column }
{
    cells[column * rows + row]
}

/// The number of a column, where the right side is 0.
pub(crate) fn number_of(rows: usize, col: Col) -> usize
    requires { rows ≤ MOST_ROWS }
    ensures value { result ≡ number_in rows col }
    ensures within { (worlds : ℕ) → IsInside rows worlds col → result < suc (rows + worlds) }
{
    match col {
        Col::Home(row) => row as usize + 1,
        Col::World(number) => rows + number as usize,
    }
}

/// The column of a number: the right side or a home.
pub(crate) fn column_shown(rows: usize, column: usize) -> TableCol
    requires few { rows ≤ MOST_ROWS }
    requires home { column ≤ rows }
    ensures number { number_shown rows result ≡ column }
    ensures shown { IsShown rows result }
{
    if column == 0 {
        TableCol::Right
    } else {
        TableCol::Of(Col::Home((column - 1) as u32))
    }
}
