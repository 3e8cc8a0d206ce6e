//! Columns of a table as the rule sees them.
ghost use Rattle.std.specs.Prelude.{◌≡◌, ◌↔◌, IsTrue};
ghost use Rattle.ps_meaning.specs.Order.{IsAbove};
ghost use Rattle.ps_table.specs.Tableau.{HasColumn};
ghost use Rattle.ps_bland.specs.Rules.{is_artificial_column};

use ps_frac::Fraction;
use ps_table::{Col, Home, Table};

/// Whether a number is above 0.
pub(crate) fn is_above(number: &Fraction) -> bool
    ensures value { IsTrue result ↔ IsAbove number.now }
{
    number.numerator() > 0
}

/// Whether a column is an artificial one.
pub(crate) fn is_artificial(table: &Table, col: Col) -> bool
    requires { HasColumn table.now col }
    ensures value { result ≡ is_artificial_column table.now col }
{
    match col {
        Col::Home(row) => table.home(row) == Home::Artificial,
        Col::World(_) => false,
    }
}
