//! The cells that change in a pivot. A cell with a 0 in the pivot's row or in the column that enters
//! stays as it is.
ghost use Rattle.std.specs.Prelude.{◌≡◌, suc, ◌<◌, IfOk, IfErr};
ghost use Rattle.ps_table.specs.Places.{IsWideAt, IsRefusedAt, IsNarrow};
ghost use Rattle.ps_table.specs.Grids.{width, IsPivotOf, IsOtherCell, GridPivotPlaces};
ghost use Rattle.ps_table.specs.Grids.{scaled_in, IsScaleNarrow};
ghost use Rattle.ps_table.specs.Grids.{lost_in, IsTimesNarrow, IsCellNarrow};
ghost use Rattle.ps_table.specs.Grids.{pivoted_in};
ghost use Rattle.ps_table.specs.Changes.{AreInside, IsUpToRow, IsUpToColumn, ArePivotChanges};

use crate::at_place::{divided_at, minus_at, times_at};
use crate::change::Change;
use crate::error::TableError;
use crate::grid::Grid;
use crate::pivot::Pivot;
use crate::place::{Place, WideAt};
use ps_frac::Fraction;
use std::alloc::Global;

/// The new entry of the pivot's row in a column: the old one, divided by the pivot's.
fn quotient(grid: &Grid<'_>, pivot: &Pivot, column: usize) -> Result<Fraction, WideAt>
    requires pivot { IsPivotOf grid.now pivot.now }
    requires column { column < width grid.now }
    ensures value { IfOk result (λ r. r ≡ scaled_in grid.now pivot.now column) }
    ensures narrow { IfOk result (λ _. IsScaleNarrow grid.now pivot.now column) }
    ensures refused { IfErr result (IsWideAt (GridPivotPlaces grid.now pivot.now)) }
{
    let place = Place::Scale {
        col: grid.column_shown(column),
    };
    divided_at(
        place,
        &grid.cell(pivot.row, column),
        &pivot.entry(pivot.row),
    )
}

/// What a cell loses, by the new entry of the pivot's row in its column.
fn lost(
    grid: &Grid<'_>,
    pivot: &Pivot,
    scaled: &Fraction,
    row: usize,
    column: usize,
) -> Result<Fraction, WideAt>
    requires pivot { IsPivotOf grid.now pivot.now }
    requires cell { IsOtherCell grid.now pivot.now row column }
    requires scaled { scaled.now ≡ scaled_in grid.now pivot.now column }
    ensures value { IfOk result (λ r. r ≡ lost_in grid.now pivot.now row column) }
    ensures narrow { IfOk result (λ _. IsTimesNarrow grid.now pivot.now row column) }
    ensures refused { IfErr result (IsWideAt (GridPivotPlaces grid.now pivot.now)) }
{
    let place = Place::Times {
        row: row as u32,
        col: grid.column_shown(column),
    };
    times_at(place, &pivot.entry(row), scaled)
}

/// A cell of another row than the pivot's, after the pivot: less what it loses.
fn changed_entry(
    grid: &Grid<'_>,
    pivot: &Pivot,
    scaled: &Fraction,
    row: usize,
    column: usize,
) -> Result<Fraction, WideAt>
    requires pivot { IsPivotOf grid.now pivot.now }
    requires cell { IsOtherCell grid.now pivot.now row column }
    requires scaled { scaled.now ≡ scaled_in grid.now pivot.now column }
    ensures value { IfOk result (λ r. r ≡ pivoted_in grid.now pivot.now row column) }
    ensures narrow { IfOk result (λ _. IsCellNarrow grid.now pivot.now row column) }
    ensures refused { IfErr result (IsWideAt (GridPivotPlaces grid.now pivot.now)) }
{
    let product = lost(grid, pivot, scaled, row, column)?;
    let place = Place::Minus {
        row: row as u32,
        col: grid.column_shown(column),
    };
    minus_at(place, &grid.cell(row, column), &product)
}

/// Appends the change of a cell, by the pivot's new row, where the cell changes.
fn push_cell(
    changes: &mut Vec<Change>,
    grid: &Grid<'_>,
    pivot: &Pivot,
    scaled: &Fraction,
    row: usize,
    column: usize,
) -> Result<(), TableError>
    requires pivot { IsPivotOf grid.now pivot.now }
    requires row { row < grid.now.rows }
    requires column { column < width grid.now }
    requires scaled { scaled.now ≡ scaled_in grid.now pivot.now column }
    requires before { IsUpToRow grid.now pivot.now row column changes.old.items }
    ensures after { IfOk result (λ _. IsUpToRow grid.now pivot.now (suc row) column
        changes.new.items) }
    ensures refused { IfErr result (IsRefusedAt (GridPivotPlaces grid.now pivot.now)) }
{
    let place = grid.place(row, column);
    if row == pivot.row {
        let entry = *scaled;
        changes.push(Change { place, entry })?;
        return Ok(());
    }
    if pivot.entry(row).is_zero() {
        // Called for its clauses: a cell that fits isn't refused less 0.
        grid.cell(row, column).fits();
        return Ok(());
    }
    let entry = changed_entry(grid, pivot, scaled, row, column)?;
    changes.push(Change { place, entry })?;
    Ok(())
}

/// Appends the changes of a column's cells, by the pivot's new row.
fn push_cells(
    changes: &mut Vec<Change>,
    grid: &Grid<'_>,
    pivot: &Pivot,
    scaled: &Fraction,
    column: usize,
) -> Result<(), TableError>
    requires pivot { IsPivotOf grid.now pivot.now }
    requires column { column < width grid.now }
    requires scaled { scaled.now ≡ scaled_in grid.now pivot.now column }
    requires before { IsUpToColumn grid.now pivot.now column changes.old.items }
    ensures after { IfOk result
        (λ _. IsUpToColumn grid.now pivot.now (suc column) changes.new.items) }
    ensures refused { IfErr result (IsRefusedAt (GridPivotPlaces grid.now pivot.now)) }
{
    for row in 0..grid.rows() {
        push_cell(changes, grid, pivot, scaled, row, column)?;
    }
    Ok(())
}

/// Appends the changes of a column; a column with a 0 in the pivot's row has none.
fn push_column(
    changes: &mut Vec<Change>,
    grid: &Grid<'_>,
    pivot: &Pivot,
    column: usize,
) -> Result<(), TableError>
    requires pivot { IsPivotOf grid.now pivot.now }
    requires column { column < width grid.now }
    requires before { IsUpToColumn grid.now pivot.now column changes.old.items }
    ensures after { IfOk result
        (λ _. IsUpToColumn grid.now pivot.now (suc column) changes.new.items) }
    ensures narrow { IfOk result (λ _. IsScaleNarrow grid.now pivot.now column) }
    ensures refused { IfErr result (IsRefusedAt (GridPivotPlaces grid.now pivot.now)) }
{
    if grid.cell(pivot.row, column).is_zero() {
        // Called for its clauses: cells that fit aren't refused less 0.
        grid.column_fits(column);
        return Ok(());
    }
    let scaled = quotient(grid, pivot, column)?;
    push_cells(changes, grid, pivot, &scaled, column)
}

/// The changes of a pivot.
pub(crate) fn pivot_changes(
    alloc: Global,
    grid: &Grid<'_>,
    pivot: &Pivot,
) -> Result<Vec<Change>, TableError>
    requires pivot { IsPivotOf grid.now pivot.now }
    ensures inside { IfOk result (λ v. AreInside grid.now.cells v.items) }
    ensures pivoted { IfOk result (λ v. ArePivotChanges grid.now pivot.now v.items) }
    ensures narrow { IfOk result (λ _. IsNarrow (GridPivotPlaces grid.now pivot.now)) }
    ensures refused { IfErr result (IsRefusedAt (GridPivotPlaces grid.now pivot.now)) }
{
    let mut changes = Vec::new(alloc);
    for column in 0..grid.width() {
        push_column(&mut changes, grid, pivot, column)?;
    }
    Ok(changes)
}
