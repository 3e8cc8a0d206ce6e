//! The multipliers of all rows.
ghost use Rattle.std.specs.Prelude.{◌≡◌, ◌<◌, ◌≤◌, length, get_or, IfOk, IfSome};
ghost use Rattle.ps_meaning.specs.Rational.{zero_q};
ghost use Rattle.ps_table.specs.declared.limits.TheConstants.{MOST_ROWS};
ghost use Rattle.ps_table.specs.Prices.{IsWholePrice};

use ps_frac::Fraction;
use ps_io::NoMemory;
use ps_whole::Whole;
use std::alloc::Global;
use std::marker::Model;

/// The multipliers of all rows, and once more over one denominator, where they stay small.
#[derive(Drop)]
pub struct Multipliers {
    each: Vec<Fraction>,
    row: Option<Whole>,
}

impl Model for Multipliers {
    ghost use Rattle.std.specs.Prelude.{List, IfSome};
    ghost use Rattle.ps_meaning.specs.Rational.{Rational};
    ghost use Rattle.ps_whole.specs.Rows.{IsRowOf};

    ghost Value = { List Rational };

    ghost view = { λ m. m.each.items };

    ghost invariant = { λ m. IfSome m.row (IsRowOf m.each.items) };
}

impl Multipliers {
    /// These multipliers.
    pub(crate) fn of(alloc: Global, each: Vec<Fraction>) -> Result<Multipliers, NoMemory>
        requires few { length each.items ≤ MOST_ROWS }
        ensures value { IfOk result (λ m. m ≡ each.items) }
    {
        let row = Whole::row_of(alloc, &each)?;
        Ok(Multipliers { each, row })
    }

    /// The multiplier of a row.
    pub(crate) fn at(&self, row: usize) -> Fraction
        requires { row < length self.now }
        ensures value { result ≡ get_or self.now row zero_q }
    {
        self.each[row]
    }

    /// The price of a world of these entries, added over one denominator, where the sums stay
    /// small.
    pub(crate) fn whole_price(&self, entries: &[i64]) -> Option<Fraction>
        requires count { length entries.now ≡ length self.now }
        ensures price { IfSome result (IsWholePrice self.now entries.now) }
    {
        match &self.row {
            Some(row) => row.cell_of(entries, 0),
            None => None,
        }
    }
}
