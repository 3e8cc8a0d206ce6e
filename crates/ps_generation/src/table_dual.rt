//! The dual of a table.
ghost use Rattle.std.specs.Prelude.{◌≡◌, suc, ◌≤◌, All, IfOk, IfErr, [], length};
ghost use Rattle.ps_meaning.specs.declared.limits.TheConstants.{PRINTED_LIMIT};
ghost use Rattle.ps_table.specs.Tableau.{rows_of};
ghost use Rattle.ps_table.specs.Pricing.{HasCosts};
ghost use Rattle.ps_table.specs.Places.{IsNarrow, IsRefusedAt};
ghost use Rattle.ps_generation.specs.Multiples.{DualPlaces};
ghost use Rattle.ps_problem.specs.Rows.{signed_by};
ghost use Rattle.ps_runs.specs.Certificates.{top_of, head_of};
ghost use Rattle.ps_claims.specs.Certificates.{IsMultiplier, IsSmallDual};
ghost use Rattle.ps_generation.specs.Duals.{AreSigned, IsTableDual, row_numbers};

use crate::multipliers::scaled_multipliers;
use ps_answer::Dual;
use ps_claims::ClaimKind;
use ps_io::{List, NoMemory};
use ps_problem::{Row, Side};
use ps_table::{Costs, Table, TableError};
use std::alloc::Global;

/// The top of a dual, by the multiple of the multipliers.
fn top_of(kind: ClaimKind, multiple: u128) -> i128
    requires { multiple ≤ PRINTED_LIMIT }
    ensures value { result ≡ top_of kind multiple }
    ensures small { IsMultiplier result }
{
    match kind {
        ClaimKind::Nothing => 0,
        ClaimKind::Lower | ClaimKind::Upper => multiple as i128,
    }
}

/// The head of a dual, by the whole multiplier of row 0.
fn head_of(kind: ClaimKind, number: i128) -> i128
    requires { IsMultiplier number }
    ensures value { result ≡ head_of kind number }
    ensures small { IsMultiplier result }
{
    match kind {
        ClaimKind::Nothing | ClaimKind::Lower => number,
        ClaimKind::Upper => -number,
    }
}

/// A row's multiplier in a dual: that of the table, turned round for a lower bound.
fn multiplier_of(side: Side, number: i128) -> i128
    requires { IsMultiplier number }
    ensures value { result ≡ signed_by side number }
    ensures small { IsMultiplier result }
{
    match side {
        Side::AtLeast => -number,
        Side::AtMost | Side::Exactly => number,
    }
}

/// A multiplier for each row, by the whole multipliers of the table: that of row 0, and behind it
/// these rows'.
fn bound_rows(alloc: Global, rows: &[Row], numbers: &[i128]) -> Result<List<i128>, NoMemory>
    requires count { length numbers.now ≡ suc (length rows.now) }
    requires small { All IsMultiplier numbers.now }
    ensures rows { IfOk result (AreSigned rows.now (row_numbers numbers.now)) }
    ensures small { IfOk result (All IsMultiplier) }
{
    let mut multipliers = List::new(alloc);
    for i in 0..rows.len() {
        multipliers.push(multiplier_of(rows[i].side, numbers[i + 1]))?;
    }
    Ok(multipliers)
}

/// The dual of a table, without steps: the multipliers of its rows, each times the least common
/// multiple of their denominators. Row 0 gives the head, and each row behind it the multiplier of
/// its bound.
pub fn dual_of(
    alloc: Global,
    rows: &[Row],
    kind: ClaimKind,
    table: &Table,
    costs: &Costs,
) -> Result<Dual, TableError>
    requires costs { HasCosts costs.now table.now }
    requires rows { rows_of table.now ≡ suc (length rows.now) }
    ensures value { IfOk result (IsTableDual kind rows.now table.now costs.now) }
    ensures small { IfOk result IsSmallDual }
    ensures count { IfOk result (λ d. length d.rows ≡ length rows.now) }
    ensures steps { IfOk result (λ d. d.steps ≡ []) }
    ensures narrow { IfOk result (λ _. IsNarrow (DualPlaces table.now costs.now)) }
    ensures refused { IfErr result (IsRefusedAt (DualPlaces table.now costs.now)) }
{
    let scaled = scaled_multipliers(alloc, table, costs)?;
    let numbers = scaled.numbers.as_slice();
    Ok(Dual {
        top: top_of(kind, scaled.multiple),
        head: head_of(kind, numbers[0]),
        rows: bound_rows(alloc, rows, numbers)?,
        steps: List::new(alloc),
    })
}
