//! Weights: whole multiples of the values of the rows whose basic column is a world.
ghost use Rattle.std.specs.Prelude.{◌≡◌, suc, ◌<◌, ◌≤◌};
ghost use Rattle.std.specs.Prelude.{◌↔◌, IsTrue, IfOk, IfErr, unsigned_abs};
ghost use Rattle.ps_table.specs.Tableau.{rows_of};
ghost use Rattle.ps_meaning.specs.declared.limits.TheConstants.{PRINTED_LIMIT};
ghost use Rattle.ps_table.specs.Places.{IsWideAt, IsRefusedAt, IsNarrow};
ghost use Rattle.ps_bland.specs.Ready.{HasNoNegativeValue};
ghost use Rattle.ps_generation.specs.Multiples.{weight_of, weight_multiple_of, ModelPlaces};
ghost use Rattle.ps_generation.specs.Multiples.{AreWeights, total_of};
ghost use Rattle.ps_generation.specs.Rows.{IsWeighedIn, multiple_to_row, total_to_row};
ghost use Rattle.ps_generation.specs.Rows.{AreWeightRows, IsPrintedMultiple};

use crate::at_place::{multiple_at, product_at, sum_at};
use ps_io::List;
use ps_table::{Col, Place, Table, TableError, WideAt};
use std::alloc::Global;

/// The weight of each row, and their sum.
#[derive(Drop)]
pub struct Weights {
    /// The sum of the weights.
    pub total: i128,
    /// The weight of each row, in order.
    pub rows: List<i128>,
}

/// Whether a row's basic column is a world, of a value above 0.
fn is_weighed(table: &Table, row: u32) -> bool
    requires { row < rows_of table.now }
    ensures { IsTrue result ↔ IsWeighedIn table.now row }
{
    match table.basic(row) {
        Col::Home(_) => false,
        Col::World(_) => table.value(row).numerator() > 0,
    }
}

/// The multiple of the rows before row `row`, with the denominator of that row's value where it
/// makes a weight.
#[tactic(auto, using(crate::proofs::Weighed::passed_multiple, crate::proofs::Weighed::next_multiple, crate::proofs::Weighed::wide_weight))]
fn multiple_with(table: &Table, row: u32, multiple: u128) -> Result<u128, WideAt>
    requires row { row < rows_of table.now }
    requires values { HasNoNegativeValue table.now }
    requires before { IsPrintedMultiple (multiple_to_row table.now row) multiple }
    ensures with { IfOk result (IsPrintedMultiple (multiple_to_row table.now (suc row))) }
    ensures refused { IfErr result (IsWideAt (ModelPlaces table.now)) }
{
    if !is_weighed(table, row) {
        return Ok(multiple);
    }
    multiple_at(Place::Weight { row }, multiple, &table.value(row))
}

/// The least common multiple of the denominators of the values that make weights.
fn weight_multiple(table: &Table) -> Result<u128, WideAt>
    requires { HasNoNegativeValue table.now }
    ensures value { IfOk result (IsPrintedMultiple (weight_multiple_of table.now)) }
    ensures refused { IfErr result (IsWideAt (ModelPlaces table.now)) }
{
    let mut multiple = 1;
    for row in 0..table.rows() {
        multiple = multiple_with(table, row, multiple)?;
    }
    Ok(multiple)
}

/// The weight of a row.
#[tactic(auto, using(crate::proofs::Weighed::no_weight, crate::proofs::Weighed::weight_is, crate::proofs::Weighed::wide_weighed))]
fn row_weight(table: &Table, row: u32, multiple: u128) -> Result<i128, WideAt>
    requires row { row < rows_of table.now }
    requires values { HasNoNegativeValue table.now }
    requires multiple { IsPrintedMultiple (weight_multiple_of table.now) multiple }
    ensures value { IfOk result (λ r. r ≡ weight_of table.now row) }
    ensures within { IfOk result (λ r. unsigned_abs r ≤ PRINTED_LIMIT) }
    ensures refused { IfErr result (IsWideAt (ModelPlaces table.now)) }
{
    if !is_weighed(table, row) {
        return Ok(0);
    }
    product_at(Place::Weighed { row }, &table.value(row), multiple)
}

/// The weight of each row.
fn weight_rows(alloc: Global, table: &Table, multiple: u128) -> Result<List<i128>, TableError>
    requires values { HasNoNegativeValue table.now }
    requires multiple { IsPrintedMultiple (weight_multiple_of table.now) multiple }
    ensures rows { IfOk result (AreWeightRows table.now (rows_of table.now)) }
    ensures refused { IfErr result (IsRefusedAt (ModelPlaces table.now)) }
{
    let mut rows = List::new(alloc);
    for row in 0..table.rows() {
        rows.push(row_weight(table, row, multiple)?)?;
    }
    Ok(rows)
}

/// The sum of the weights of the rows before row `row`, and of that row.
#[tactic(auto, using(crate::proofs::Weighed::passed_total, crate::proofs::Weighed::wide_total))]
fn total_with(table: &Table, row: u32, total: i128, weight: i128) -> Result<i128, WideAt>
    requires row { row < rows_of table.now }
    requires values { HasNoNegativeValue table.now }
    requires before { total ≡ total_to_row table.now row }
    requires total_within { unsigned_abs total ≤ PRINTED_LIMIT }
    requires weight { weight ≡ weight_of table.now row }
    requires weight_within { unsigned_abs weight ≤ PRINTED_LIMIT }
    ensures with { IfOk result (λ r. r ≡ total_to_row table.now (suc row)) }
    ensures within { IfOk result (λ r. unsigned_abs r ≤ PRINTED_LIMIT) }
    ensures refused { IfErr result (IsWideAt (ModelPlaces table.now)) }
{
    if !is_weighed(table, row) {
        return Ok(total);
    }
    sum_at(Place::Total { row }, total, weight)
}

/// The sum of the weights.
fn total_of(table: &Table, rows: &[i128]) -> Result<i128, WideAt>
    requires values { HasNoNegativeValue table.now }
    requires rows { AreWeightRows table.now (rows_of table.now) rows.now }
    ensures value { IfOk result (λ r. r ≡ total_of table.now) }
    ensures within { IfOk result (λ r. unsigned_abs r ≤ PRINTED_LIMIT) }
    ensures refused { IfErr result (IsWideAt (ModelPlaces table.now)) }
{
    let mut total = 0;
    for row in 0..table.rows() {
        total = total_with(table, row, total, rows[row as usize])?;
    }
    Ok(total)
}

/// The weights of a table's rows: the values of the rows whose basic column is a world, each times
/// the least common multiple of their denominators, and their sum.
pub fn weights_of(alloc: Global, table: &Table) -> Result<Weights, TableError>
    requires { HasNoNegativeValue table.now }
    ensures value { IfOk result (AreWeights table.now) }
    ensures narrow { IfOk result (λ _. IsNarrow (ModelPlaces table.now)) }
    ensures refused { IfErr result (IsRefusedAt (ModelPlaces table.now)) }
{
    let multiple = weight_multiple(table)?;
    let rows = weight_rows(alloc, table, multiple)?;
    let total = total_of(table, rows.as_slice())?;
    Ok(Weights { total, rows })
}
