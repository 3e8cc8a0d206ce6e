//! The distribution of a table.
ghost use Rattle.std.specs.Prelude.{◌≡◌, ◌↔◌, ◌<◌, ◌≤◌, ◌++◌, map};
ghost use Rattle.std.specs.Prelude.{IfOk, IfErr, OnOk, IsTrue, unsigned_abs};
ghost use Rattle.std.specs.Int.{◌∣◌};
ghost use Rattle.ps_meaning.specs.declared.limits.TheConstants.{PRINTED_LIMIT};
ghost use Rattle.ps_table.specs.Tableau.{rows_of};
ghost use Rattle.ps_table.specs.Places.{IsNarrow, IsRefusedAt};
ghost use Rattle.ps_bland.specs.Rules.{simplex_of};
ghost use Rattle.ps_bland.specs.Ready.{HasNoNegativeValue};
ghost use Rattle.ps_generation.specs.Multiples.{AreWeights, ModelPlaces, weight_multiple_of};
ghost use Rattle.ps_runs.specs.Certificates.{weighted_worlds};
ghost use Rattle.ps_generation.specs.Models.{AreApart, IsBasicIn, IsRowOf, column_value, column_weight};
ghost use Rattle.ps_generation.specs.Models.{weighed, IsTableModel};
ghost use Rattle.ps_claims.specs.Certificates.{entry_of};
ghost use Rattle.ps_claims.specs.Printed.{IsPrintedModel};

use crate::weights::{Weights, weights_of};
use ps_answer::{Model, Weighted, Worlds};
use ps_formula::World;
use ps_io::{List, NoMemory};
use ps_runs::world_in;
use ps_table::{Col, Pool, Table, TableError};
use std::alloc::Global;

/// Whether the world of a number is basic in a row.
fn is_basic(table: &Table, row: u32, number: u32) -> bool
    requires { row < rows_of table.now }
    ensures { IsTrue result ↔ IsBasicIn table.now number row }
{
    match table.basic(row) {
        Col::World(other) => other == number,
        Col::Home(_) => false,
    }
}

/// The row in which the world of a number is basic, if there is one.
fn row_of(table: &Table, number: u32) -> Option<u32>
    ensures { IsRowOf table.now number result }
{
    for row in 0..table.rows() {
        if is_basic(table, row, number) {
            return Some(row);
        }
    }
    None
}

/// The weight of a world's column: that of its row, where it is basic in one, else 0.
#[tactic(auto, using(crate::proofs::Weighing::weight_none, crate::proofs::Weighing::divides_here, crate::proofs::Weighing::divides_none))]
fn weight_of(table: &Table, weights: &Weights, number: u32) -> i128
    requires some { 0 < number }
    requires apart { AreApart table.now }
    requires weights { AreWeights table.now weights.now }
    ensures value { result ≡ column_weight table.now number }
    ensures divides { (column_value table.now number).under ∣ weight_multiple_of table.now }
    ensures small { unsigned_abs result ≤ PRINTED_LIMIT }
{
    // Called for its clauses: the table is in the form in which tables are kept.
    let _rows = table.rows();
    match row_of(table, number) {
        Some(row) => weights.rows.as_slice()[row as usize],
        None => 0,
    }
}

/// Adds a world with its weight, where that is above 0.
fn add_weighed(
    alloc: Global,
    worlds: &mut Worlds,
    world: &World,
    weight: i128,
) -> Result<(), NoMemory>
    ensures { OnOk result (worlds.new ≡ worlds.old ++ weighed weight world.now) }
{
    if weight <= 0 {
        return Ok(());
    }
    let world = world.copy(alloc)?;
    worlds.push(Weighted { weight, world })
}

/// The worlds that are basic with a value above 0, with their weights.
fn weighed_worlds(
    alloc: Global,
    table: &Table,
    pool: &Pool,
    weights: &Weights,
) -> Result<Worlds, NoMemory>
    requires apart { AreApart table.now }
    requires weights { AreWeights table.now weights.now }
    ensures { IfOk result
        (λ ws. map entry_of ws ≡ weighted_worlds (simplex_of table.now) pool.now) }
{
    let mut worlds = List::new(alloc);
    for place in 0..pool.len() {
        let weight = weight_of(table, weights, place + 1);
        add_weighed(alloc, &mut worlds, world_in(pool, place + 1), weight)?;
    }
    Ok(worlds)
}

/// The distribution of a table: the worlds of its pool that are basic with a value above 0, in
/// their order, each with its value times the least common multiple of the denominators.
pub fn model_of(alloc: Global, table: &Table, pool: &Pool) -> Result<Model, TableError>
    requires values { HasNoNegativeValue table.now }
    requires apart { AreApart table.now }
    ensures value { IfOk result (IsTableModel table.now pool.now) }
    ensures printed { IfOk result IsPrintedModel }
    ensures narrow { IfOk result (λ _. IsNarrow (ModelPlaces table.now)) }
    ensures refused { IfErr result (IsRefusedAt (ModelPlaces table.now)) }
{
    let weights = weights_of(alloc, table)?;
    let worlds = weighed_worlds(alloc, table, pool, &weights)?;
    Ok(Model {
        total: weights.total,
        worlds,
    })
}
