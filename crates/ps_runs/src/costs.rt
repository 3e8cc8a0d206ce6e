//! The costs of a phase.
ghost use Rattle.std.specs.Prelude.{◌≡◌, ◌≢◌, ◌<◌, ◌≤ℤ◌, pos, negsuc, All, IfOk, length, map};
ghost use Rattle.std.specs.Prelude.{◌-◌, ◌≤◌, [], get_or};
ghost use Rattle.ps_formula.specs.Nodes.{AtomBelow, truths};
ghost use Rattle.ps_problem.specs.Rows.{HasNode, indicator_of};
ghost use Rattle.ps_runs.specs.Columns.{home_cost, cost_over, costs_over};

use ps_formula::{Formulas, World, eval};
use ps_io::{List, NoMemory};
use ps_simplex::Phase;
use ps_table::{CostList, Costs, Home, Pool, Table};
use std::alloc::Global;

/// The cost of a home: phase one makes the artificials as small as it can.
fn home_cost(phase: Phase, home: Home) -> i8
    ensures { result ≡ home_cost phase home }
{
    match (phase, home) {
        (Phase::One, Home::Artificial) => 1,
        _ => 0,
    }
}

/// 1 where a node is true, else 0.
fn indicator(values: &[bool], node: u32) -> i8
    requires { HasNode values.now node }
    ensures value { result ≡ indicator_of values.now node }
    ensures low { pos 0 ≤ℤ result }
    ensures high { result ≤ℤ pos 1 }
{
    if values[node as usize] { 1 } else { 0 }
}

/// The cost of a world, by the truth values of the nodes: the sides make the query, whose node with
/// its evidence is `both`, as small or as great as they can.
pub fn world_cost(phase: Phase, both: u32, values: &[bool]) -> i8
    requires { phase ≢ Phase.One → HasNode values.now both }
    ensures value { result ≡ cost_over phase both values.now }
    ensures low { negsuc 0 ≤ℤ result }
    ensures high { result ≤ℤ pos 1 }
{
    match phase {
        Phase::One => 0,
        Phase::Lower => indicator(values, both),
        Phase::Upper => -indicator(values, both),
    }
}

/// The costs of the homes.
fn home_costs(alloc: Global, phase: Phase, table: &Table) -> Result<CostList, NoMemory>
    ensures { IfOk result (λ costs. costs ≡ map (home_cost phase) table.now.kinds) }
{
    let mut costs = List::new(alloc);
    for row in 0..table.rows() {
        costs.push(home_cost(phase, table.home(row)))?;
    }
    Ok(costs)
}

/// The world of a number in a pool.
#[tactic(auto, using(crate::proofs::Pools::world_is, crate::proofs::Pools::no_world))]
pub fn world_in(pool: &Pool, number: u32) -> &World
    requires some { 0 < number }
    requires there { number ≤ length pool.now }
    ensures { result.now ≡ get_or pool.now (number - 1) [] }
{
    match pool.world(number) {
        Some(world) => world,
        None => unreachable!(),
    }
}

/// The cost of a world of the pool.
fn cost_of(
    alloc: Global,
    phase: Phase,
    formulas: &Formulas,
    both: u32,
    world: &World,
) -> Result<i8, NoMemory>
    requires atoms { All (AtomBelow (length world.now)) formulas.now }
    requires both { phase ≢ Phase.One → both < length formulas.now }
    ensures value { IfOk result
        (λ cost. cost ≡ cost_over phase both (truths formulas.now world.now)) }
{
    match phase {
        Phase::One => Ok(0),
        Phase::Lower | Phase::Upper => {
            let values = eval(alloc, formulas, world)?;
            Ok(world_cost(phase, both, &values))
        }
    }
}

/// The costs of the worlds of a pool.
#[tactic(auto, using(crate::proofs::Pools::atoms_below, crate::proofs::Pools::next_cost))]
fn world_costs(
    alloc: Global,
    phase: Phase,
    formulas: &Formulas,
    both: u32,
    pool: &Pool,
) -> Result<CostList, NoMemory>
    requires atoms { All (λ w. All (AtomBelow (length w)) formulas.now) pool.now }
    requires both { phase ≢ Phase.One → both < length formulas.now }
    ensures { IfOk result (λ costs. costs ≡ costs_over phase formulas.now both pool.now) }
{
    let mut costs = List::new(alloc);
    for place in 0..pool.len() {
        costs.push(cost_of(alloc, phase, formulas, both, world_in(pool, place + 1))?)?;
    }
    Ok(costs)
}

/// The costs of a phase: of each home of a table, and of each world of its pool.
pub fn costs_for(
    alloc: Global,
    phase: Phase,
    formulas: &Formulas,
    both: u32,
    table: &Table,
    pool: &Pool,
) -> Result<Costs, NoMemory>
    requires atoms { All (λ w. All (AtomBelow (length w)) formulas.now) pool.now }
    requires both { phase ≢ Phase.One → both < length formulas.now }
    ensures homes { IfOk result (λ c. c.homes ≡ map (home_cost phase) table.now.kinds) }
    ensures worlds { IfOk result
        (λ c. c.worlds ≡ costs_over phase formulas.now both pool.now) }
{
    Ok(Costs {
        homes: home_costs(alloc, phase, table)?,
        worlds: world_costs(alloc, phase, formulas, both, pool)?,
    })
}
