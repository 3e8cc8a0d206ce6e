//! Whether phase one is due to end.
ghost use Rattle.std.specs.Prelude.{◌<◌, ◌↔◌, IsTrue};
ghost use Rattle.ps_simplex.specs.Rule.{IsFeasible};
ghost use Rattle.ps_table.specs.Tableau.{rows_of, IsTableau};
ghost use Rattle.ps_bland.specs.Rules.{simplex_of, IsDueToEndIn};
ghost use Rattle.ps_bland.specs.Rounds.{IsRowFeasible};

use crate::columns::is_artificial;
use ps_simplex::Phase;
use ps_table::Table;

/// Whether a row has value 0, or a basic column that isn't artificial.
fn is_row_feasible(table: &Table, row: u32) -> bool
    requires { row < rows_of table.now }
    ensures value { IsTrue result ↔ IsRowFeasible table.now row }
{
    !is_artificial(table, table.basic(row)) || table.value(row).is_zero()
}

/// Whether each basic artificial has value 0.
fn is_feasible(table: &Table) -> bool
    ensures value { IsTrue result ↔ IsFeasible (simplex_of table.now) }
{
    for row in 0..table.rows() {
        if !is_row_feasible(table, row) {
            return false;
        }
    }
    true
}

/// Whether phase one is due to end.
pub(crate) fn is_due_to_end(phase: Phase, table: &Table) -> bool
    ensures value { IsTrue result ↔ IsDueToEndIn phase table.now }
    ensures tableau { IsTableau table.now }
{
    // Called for its clauses: the table is in the form in which tables are kept.
    let _rows = table.rows();
    match phase {
        Phase::One => is_feasible(table),
        Phase::Lower => false,
        Phase::Upper => false,
    }
}
