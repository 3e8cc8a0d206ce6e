ghost use Rattle.std.specs.Prelude.{IsTrue};
ghost use Rattle.ps_generation.specs.Models.{AreApart};

use crate::rows::lower_row;
use crate::tables::{adds, are_values_at_least_zero, has_costs, pivots};
use ps_answer::{Dual, Model, Weighted};
use ps_claims::ClaimKind;
use ps_formula::World;
use ps_generation::{Weights, dual_of, model_of, weights_of};
use ps_io::List;
use ps_table::{Col, CostList, Costs, Home, Pool, Table};
use std::alloc::Global;
use std::test::*;

// The worlds' truth values, and their columns.
const WORLDS: [([bool; 2], [i64; 2]); 3] = [
    ([true, false], [1, 2]),
    ([true, true], [1, 0]),
    ([false, false], [1, -1]),
];

// Over the sum 1 and the row `2 * first - third = 0` the first world has 1/3 and the third 2/3.
fn a_table(alloc: Global) -> Option<Table> {
    let mut table = Table::new(alloc, &[Home::Artificial, Home::Artificial]).ok()?;
    for world in &WORLDS {
        if !adds(&mut table, &world.1) {
            return None;
        }
    }
    if !pivots(&mut table, 0, Col::World(1)) || !pivots(&mut table, 1, Col::World(3)) {
        return None;
    }
    Some(table)
}

fn adds_world(alloc: Global, pool: &mut Pool, values: &[bool]) -> bool {
    let mut world = World::new(alloc);
    for value in values {
        if world.push(*value).is_err() {
            return false;
        }
    }
    pool.len() < 10 && pool.add(world).is_ok()
}

fn a_pool(alloc: Global) -> Option<Pool> {
    let mut pool = Pool::new(alloc);
    for world in &WORLDS {
        if !adds_world(alloc, &mut pool, &world.0) {
            return None;
        }
    }
    Some(pool)
}

fn list_of(alloc: Global, items: &[i8]) -> Option<CostList> {
    let mut list = List::new(alloc);
    for item in items {
        list.push(*item).ok()?;
    }
    Some(list)
}

// The first world costs 1.
fn some_costs(alloc: Global) -> Option<Costs> {
    Some(Costs {
        homes: list_of(alloc, &[0, 0])?,
        worlds: list_of(alloc, &[1, 0, 0])?,
    })
}

fn are_first_and_third(table: &Table) -> bool
    ensures { IsTrue result → AreApart table.now }
{
    table.rows() == 2 && table.basic(0) == Col::World(1) && table.basic(1) == Col::World(3)
}

fn weighs(weighted: &Weighted, weight: i128, values: &[bool]) -> bool {
    weighted.weight == weight && weighted.world.as_slice() == values
}

fn is_right_model(model: &Model) -> bool {
    let worlds = model.worlds.as_slice();
    model.total == 3
        && worlds.len() == 2
        && weighs(&worlds[0], 1, &WORLDS[0].0)
        && weighs(&worlds[1], 2, &WORLDS[2].0)
}

fn is_right_dual(dual: &Dual) -> bool {
    dual.top == 3
        && dual.head == 1
        && dual.rows.as_slice() == [-1].as_slice()
        && dual.steps.len() == 0
}

fn found_model(alloc: Global) -> Option<Model> {
    let table = a_table(alloc)?;
    let pool = a_pool(alloc)?;
    if !are_values_at_least_zero(&table) || !are_first_and_third(&table) {
        return None;
    }
    model_of(alloc, &table, &pool).ok()
}

fn found_dual(alloc: Global) -> Option<Dual> {
    let table = a_table(alloc)?;
    let costs = some_costs(alloc)?;
    if table.rows() != 2 || !has_costs(&table, &costs) {
        return None;
    }
    let lower = lower_row(alloc).ok()?;
    dual_of(alloc, &[lower], ClaimKind::Lower, &table, &costs).ok()
}

#[test]
fn a_third_weighs_one(rt: HostRuntime) -> Result<(), Fail> {
    let right = match found_model(rt.alloc()) {
        Some(model) => is_right_model(&model),
        None => false,
    };
    assert!(rt; right);
    Ok(())
}

#[test]
fn multipliers_are_turned_at_lower_bounds(rt: HostRuntime) -> Result<(), Fail> {
    let right = match found_dual(rt.alloc()) {
        Some(dual) => is_right_dual(&dual),
        None => false,
    };
    assert!(rt; right);
    Ok(())
}

// A world of entry 3 is basic in row 0, so that its value is 1/3.
fn weights_of_a_third(alloc: Global) -> Option<Weights> {
    let mut table = Table::new(alloc, &[Home::Artificial]).ok()?;
    if !adds(&mut table, &[3]) || !pivots(&mut table, 0, Col::World(1)) {
        return None;
    }
    if !are_values_at_least_zero(&table) {
        return None;
    }
    weights_of(alloc, &table).ok()
}

fn are_of_a_third(weights: &Weights) -> bool {
    weights.total == 1 && weights.rows.as_slice() == [1].as_slice()
}

#[test]
fn weights_have_their_total(rt: HostRuntime) -> Result<(), Fail> {
    assert!(rt; weights_of_a_third(rt.alloc()).is_some_and(|weights| are_of_a_third(&weights)));
    Ok(())
}
