//! The leaving row.
ghost use Rattle.std.specs.Prelude.{◌<◌, ◌↔◌, IfOk, IfErr, IsTrue};
ghost use Rattle.ps_table.specs.Tableau.{rows_of, HasColumn};
ghost use Rattle.ps_bland.specs.Rounds.{IsArtificialRowIn, IsFirstArtificialRowIn, CanLeaveIn};
ghost use Rattle.ps_table.specs.Places.{IsColumnWide};
ghost use Rattle.ps_bland.specs.Rounds.{LeavesIn, HasEntryIn, HasLeastRatioIn, HasRisingIn};
ghost use Rattle.ps_bland.specs.Rounds.{IsLeftToRatiosIn, IsLeavingWide};

use crate::columns::is_artificial;
use crate::ratios::least_row;
use ps_simplex::Phase;
use ps_table::{Col, Table, WideAt};

/// Whether the row's basic column is artificial and its entry isn't 0.
fn is_artificial_row(table: &Table, col: Col, row: u32) -> Result<bool, WideAt>
    requires inside { HasColumn table.now col }
    requires row { row < rows_of table.now }
    ensures value { IfOk result (λ b. IsTrue b ↔ IsArtificialRowIn table.now col row) }
    ensures refused { IfErr result (IsColumnWide table.now col) }
{
    if !is_artificial(table, table.basic(row)) {
        return Ok(false);
    }
    let entry = table.entry(row, col)?;
    Ok(!entry.is_zero())
}

/// The first row with an artificial basic and an entry other than 0.
fn first_artificial_row(table: &Table, col: Col) -> Result<Option<u32>, WideAt>
    requires { HasColumn table.now col }
    ensures first { IfOk result (IsFirstArtificialRowIn table.now col) }
    ensures refused { IfErr result (IsColumnWide table.now col) }
{
    for row in 0..table.rows() {
        if is_artificial_row(table, col, row)? {
            return Ok(Some(row));
        }
    }
    Ok(None)
}

/// The row of least ratio, where no row with an artificial basic leaves.
fn leaving_by_ratio(table: &Table, phase: Phase, col: Col) -> Result<u32, WideAt>
    requires inside { HasColumn table.now col }
    requires rise { HasRisingIn table.now col }
    requires ratios { IsLeftToRatiosIn phase table.now col }
    ensures least { IfOk result (HasLeastRatioIn table.now col) }
    ensures pivot { IfOk result (HasEntryIn table.now col) }
    ensures refused { IfErr result (IsLeavingWide phase table.now col) }
{
    least_row(table, col)
}

/// The leaving row.
pub(crate) fn leaving(table: &Table, phase: Phase, col: Col) -> Result<u32, WideAt>
    requires inside { HasColumn table.now col }
    requires can_leave { CanLeaveIn phase table.now col }
    ensures leaves { IfOk result (LeavesIn phase table.now col) }
    ensures row { IfOk result (λ p. p < rows_of table.now) }
    ensures pivot { IfOk result (HasEntryIn table.now col) }
    ensures refused { IfErr result (IsLeavingWide phase table.now col) }
{
    match phase {
        Phase::One => leaving_by_ratio(table, phase, col),
        Phase::Lower | Phase::Upper => match first_artificial_row(table, col)? {
            Some(row) => Ok(row),
            None => leaving_by_ratio(table, phase, col),
        },
    }
}
