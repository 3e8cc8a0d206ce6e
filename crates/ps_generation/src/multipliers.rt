//! Whole multiples of a table's multipliers.
ghost use Rattle.std.specs.Prelude.{◌≡◌, ◌<◌, ◌≤◌, length, IfOk, IfErr};
ghost use Rattle.ps_table.specs.Tableau.{rows_of};
ghost use Rattle.ps_table.specs.declared.limits.TheConstants.{MOST_ROWS};
ghost use Rattle.ps_meaning.specs.declared.limits.TheConstants.{PRINTED_LIMIT};
ghost use Rattle.ps_table.specs.Pricing.{HasCosts};
ghost use Rattle.ps_table.specs.Places.{IsWideAt, IsRefusedAt, IsNarrow};
ghost use Rattle.ps_generation.specs.Multiples.{AreScaled, DualPlaces};
ghost use Rattle.ps_generation.specs.Rows.{AreMultipliers, AreHomesNarrow};
ghost use Rattle.ps_generation.specs.Rows.{multiple_before, ListPlaces, AreProducts};

use crate::at_place::{multiple_at, product_at};
use crate::scaled::Scaled;
use ps_frac::Fraction;
use ps_io::List;
use ps_table::{Costs, Place, Table, TableError, WideAt};
use std::alloc::Global;

/// The multiplier of each row.
#[tactic(auto, using(crate::proofs::Listed::refused_home, crate::proofs::Narrow::homes_more))]
fn multipliers(alloc: Global, table: &Table, costs: &Costs) -> Result<List<Fraction>, TableError>
    requires { HasCosts costs.now table.now }
    ensures value { IfOk result (AreMultipliers table.now costs.now) }
    ensures narrow { IfOk result (λ _. AreHomesNarrow table.now costs.now (rows_of table.now)) }
    ensures refused { IfErr result (IsRefusedAt (DualPlaces table.now costs.now)) }
{
    let mut made = List::new(alloc);
    for row in 0..table.rows() {
        made.push(table.multiplier(costs, row)?)?;
    }
    Ok(made)
}

/// The least common multiple of the numbers' denominators.
#[tactic(auto, using(crate::proofs::Listed::next_multiple, crate::proofs::Listed::wide_multiple))]
fn multiple_of(numbers: &[Fraction]) -> Result<u128, WideAt>
    requires { length numbers.now ≤ MOST_ROWS }
    ensures value { IfOk result (λ r. r ≡ multiple_before numbers.now (length numbers.now)) }
    ensures small { IfOk result (λ r. r ≤ PRINTED_LIMIT) }
    ensures refused { IfErr result (IsWideAt (ListPlaces numbers.now)) }
{
    let mut multiple = 1;
    for i in 0..numbers.len() {
        multiple = multiple_at(Place::Whole { row: i as u32 }, multiple, &numbers[i])?;
    }
    Ok(multiple)
}

/// Each number times their multiple.
fn products(alloc: Global, numbers: &[Fraction], multiple: u128) -> Result<List<i128>, TableError>
    requires few { length numbers.now ≤ MOST_ROWS }
    requires multiple { multiple ≡ multiple_before numbers.now (length numbers.now) }
    requires small { multiple ≤ PRINTED_LIMIT }
    ensures value { IfOk result (AreProducts numbers.now multiple (length numbers.now)) }
    ensures refused { IfErr result (IsRefusedAt (ListPlaces numbers.now)) }
{
    let mut made = List::new(alloc);
    for i in 0..numbers.len() {
        let place = Place::Scaled { row: i as u32 };
        made.push(product_at(place, &numbers[i], multiple)?)?;
    }
    Ok(made)
}

/// The multipliers of a table's rows, each times the least common multiple of their denominators.
#[tactic(auto, using(crate::proofs::Listed::wide_in_table, crate::proofs::Listed::refused_in_table))]
pub(crate) fn scaled_multipliers(
    alloc: Global,
    table: &Table,
    costs: &Costs,
) -> Result<Scaled, TableError>
    requires { HasCosts costs.now table.now }
    ensures value { IfOk result (AreScaled table.now costs.now) }
    ensures narrow { IfOk result (λ _. IsNarrow (DualPlaces table.now costs.now)) }
    ensures refused { IfErr result (IsRefusedAt (DualPlaces table.now costs.now)) }
{
    // Called for its clauses: a table has at most as many rows as it may have.
    let _rows = table.rows();
    let numbers = multipliers(alloc, table, costs)?;
    let multiple = multiple_of(numbers.as_slice())?;
    let products = products(alloc, numbers.as_slice(), multiple)?;
    Ok(Scaled {
        multiple,
        numbers: products,
    })
}
