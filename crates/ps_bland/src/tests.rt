//! Runs of all phases. The expected pivots and values were computed by hand and by another program.

ghost use Rattle.std.specs.Prelude.{◌≡◌, ℕ, ◌<◌, ◌≤◌, ◌≤ℤ◌, [], length, get_or, pos, IsTrue, IfSome};
ghost use Rattle.ps_meaning.specs.Rational.{Rational};
ghost use Rattle.ps_meaning.specs.Order.{IsNonneg};
ghost use Rattle.ps_table.specs.declared.limits.TheConstants.{MOST_ROWS};
ghost use Rattle.ps_table.specs.Tableau.{entry_at, IsTableFor};
ghost use Rattle.ps_bland.specs.Ready.{IsReady};
ghost use Rattle.ps_bland.specs.Columns.{AreColumns};

mod case;
mod few_rows;
mod five_rows;
mod three_rows;
mod three_rows_wide;

use crate::feasible::is_due_to_end;
use crate::{SettleError, Settled, settle};
use case::{Case, End, Stage};
use few_rows::{ONE_ROW, TWO_ROWS};
use five_rows::FIVE_ROWS;
use ps_frac::Fraction;
use ps_io::{List, NoMemory};
use ps_simplex::Phase;
use ps_table::{Col, CostList, Costs, Event, Home, Table, Trace, WideAt};
use std::alloc::Global;
use three_rows::THREE_ROWS;
use three_rows_wide::THREE_ROWS_WIDE;

fn are_between(costs: &[i8], low: i8, high: i8) -> bool
    ensures low { IsTrue result
        → (i : ℕ) → i < length costs.now → low ≤ℤ get_or costs.now i (pos 0) }
    ensures high { IsTrue result
        → (i : ℕ) → i < length costs.now → get_or costs.now i (pos 0) ≤ℤ high }
{
    for k in 0..costs.len() {
        if costs[k] < low || costs[k] > high {
            return false;
        }
    }
    true
}

fn are_values_at_least_zero(table: &Table) -> bool
    ensures { IsTrue result
        → (i : ℕ) → i < length table.now.kinds → IsNonneg (entry_at table.now i 0) }
{
    for row in 0..table.rows() {
        if table.value(row).numerator() < 0 {
            return false;
        }
    }
    true
}

/// Whether row 0 has 1 on each world.
fn begin_with_one<const N: usize>(worlds: &[[i64; N]]) -> bool
    requires { 0 < N }
    ensures { IsTrue result
        → (k : ℕ) → k < length worlds.now → get_or (get_or worlds.now k []) 0 (pos 0) ≡ pos 1 }
{
    for k in 0..worlds.len() {
        let world = worlds[k];
        if world[0] != 1 {
            return false;
        }
    }
    true
}

fn is_ready(table: &Table, costs: &Costs) -> bool
    ensures { IsTrue result → IsReady Phase.One costs.now table.now }
{
    let homes = costs.homes.as_slice();
    let worlds = costs.worlds.as_slice();
    homes.len() == table.rows() as usize
        && worlds.len() >= table.worlds() as usize
        && are_between(homes, 0, 1)
        && are_between(worlds, 0, 1)
        && are_values_at_least_zero(table)
}

fn is_ready_below(table: &Table, costs: &Costs) -> bool
    ensures { IsTrue result → IsReady Phase.Lower costs.now table.now }
{
    is_ready(table, costs) && is_due_to_end(Phase::One, table)
}

fn is_ready_above<const N: usize>(table: &Table, costs: &Costs, entries: &[[i64; N]]) -> bool
    requires some { 0 < N }
    requires stands { (A : ℕ → ℕ → Rational) → AreColumns N entries.now A → IsTableFor A table.now }
    ensures { IsTrue result → IsReady Phase.Upper costs.now table.now }
{
    let homes = costs.homes.as_slice();
    let worlds = costs.worlds.as_slice();
    table.rows() as usize == N
        && homes.len() == N
        && worlds.len() >= table.worlds() as usize
        && entries.len() >= table.worlds() as usize
        && are_between(homes, 0, 0)
        && are_between(worlds, -1, 0)
        && begin_with_one(entries)
        && are_values_at_least_zero(table)
        && is_due_to_end(Phase::One, table)
}

/// The table of the homes and the worlds, before the first pivot.
fn table_of<const N: usize>(alloc: Global, homes: &[Home; N], worlds: &[[i64; N]]) -> Option<Table>
    requires some { 0 < N }
    requires few { N ≤ MOST_ROWS }
    ensures { IfSome result
        (λ t. (A : ℕ → ℕ → Rational) → AreColumns N worlds.now A → IsTableFor A t) }
{
    let mut table = match Table::new(alloc, homes) {
        Ok(table) => table,
        Err(_) => return None,
    };
    for k in 0..worlds.len() {
        if k > 9 {
            return None;
        }
        match table.add_world(&worlds[k]) {
            Ok(_) => {}
            Err(_) => return None,
        }
    }
    Some(table)
}

fn home_cost(phase: Phase, home: Home) -> i8 {
    if phase == Phase::One && home == Home::Artificial {
        1
    } else {
        0
    }
}

fn world_cost(phase: Phase, holds: i8) -> i8 {
    match phase {
        Phase::One => 0,
        Phase::Lower => holds,
        Phase::Upper => { if holds == 1 { -1 } else { 0 } }
    }
}

fn home_costs(alloc: Global, phase: Phase, homes: &[Home]) -> Result<CostList, NoMemory> {
    let mut costs = List::new(alloc);
    for k in 0..homes.len() {
        costs.push(home_cost(phase, homes[k]))?;
    }
    Ok(costs)
}

fn world_costs(alloc: Global, phase: Phase, query: &[i8]) -> Result<CostList, NoMemory> {
    let mut costs = List::new(alloc);
    for k in 0..query.len() {
        costs.push(world_cost(phase, query[k]))?;
    }
    Ok(costs)
}

fn costs_of<const N: usize>(
    alloc: Global,
    phase: Phase,
    case: &Case<N>,
) -> Result<Costs, NoMemory> {
    let homes = home_costs(alloc, phase, &case.homes)?;
    let worlds = world_costs(alloc, phase, case.query)?;
    Ok(Costs { homes, worlds })
}

/// A phase's pivots, where the table is ready for them.
fn settled<const N: usize>(
    table: &mut Table,
    costs: &Costs,
    phase: Phase,
    left: &mut u64,
    trace: &mut Trace,
    entries: &[[i64; N]],
) -> Option<Result<Settled, SettleError>>
    requires some { 0 < N }
    requires stands { (A : ℕ → ℕ → Rational) → AreColumns N entries.now A → IsTableFor A table.old }
    ensures { (A : ℕ → ℕ → Rational) → AreColumns N entries.now A → IsTableFor A table.new }
{
    match phase {
        Phase::One => {
            if is_ready(table, costs) {
                return Some(settle(table, costs, Phase::One, left, trace));
            }
        }
        Phase::Lower => {
            if is_ready_below(table, costs) {
                return Some(settle(table, costs, Phase::Lower, left, trace));
            }
        }
        Phase::Upper => {
            if is_ready_above(table, costs, entries) {
                return Some(settle(table, costs, Phase::Upper, left, trace));
            }
        }
    }
    None
}

fn is_fraction(number: &Fraction, parts: (i128, i128)) -> bool {
    number.numerator() == parts.0 && number.denominator() == parts.1
}

fn is_end(answer: &Option<Result<Settled, SettleError>>, end: &End) -> bool {
    match answer {
        Some(Ok(settled)) => match end {
            End::Settled(due) => settled == due,
            End::Wide { .. } => false,
        },
        Some(Err(SettleError::Wide(wide))) => is_wide(wide, end),
        _ => false,
    }
}

fn is_wide(wide: &WideAt, end: &End) -> bool {
    match end {
        End::Settled(_) => false,
        End::Wide {
            place,
            op,
            left,
            right,
        } => {
            wide.place == *place
                && wide.op == *op
                && is_fraction(&wide.left, *left)
                && is_fraction(&wide.right, *right)
        }
    }
}

/// Whether the events from number `seen` on are these pivots.
fn shows(trace: &Trace, seen: usize, pivots: &[(Col, u32)]) -> bool {
    let events = trace.as_slice();
    if seen > events.len() || events.len() - seen != pivots.len() {
        return false;
    }
    for k in 0..pivots.len() {
        let pivot = pivots[k];
        let due = Event::Pivot {
            enter: pivot.0,
            leave: pivot.1,
        };
        if events[seen + k] != due {
            return false;
        }
    }
    true
}

fn has_values<const N: usize>(table: &Table, stage: &Stage<N>) -> bool {
    if table.rows() as usize != N {
        return false;
    }
    for row in 0..table.rows() {
        if !is_fraction(&table.value(row), stage.values[row as usize])
            || table.basic(row) != stage.basic[row as usize]
        {
            return false;
        }
    }
    true
}

/// Whether all phases of a case go as they should.
fn goes<const N: usize>(alloc: Global, case: &Case<N>) -> Result<bool, NoMemory>
    requires some { 0 < N }
    requires few { N ≤ MOST_ROWS }
{
    let mut table = match table_of(alloc, &case.homes, case.worlds) {
        Some(table) => table,
        None => return Ok(false),
    };
    let mut trace: Trace = List::new(alloc);
    let mut left = case.limit;
    for number in 0..case.stages.len() {
        let stage = &case.stages[number];
        let costs = costs_of(alloc, stage.phase, case)?;
        let seen = trace.len();
        let answer = settled(
            &mut table,
            &costs,
            stage.phase,
            &mut left,
            &mut trace,
            case.worlds,
        );
        if !is_end(&answer, &stage.end) || left != stage.left {
            return Ok(false);
        }
        if !shows(&trace, seen, stage.pivots) || !has_values(&table, stage) {
            return Ok(false);
        }
    }
    Ok(true)
}

/// Whether all cases go as they should.
fn all_go<const N: usize>(alloc: Global, cases: &[Case<N>]) -> Result<bool, NoMemory>
    requires some { 0 < N }
    requires few { N ≤ MOST_ROWS }
{
    for number in 0..cases.len() {
        if !goes(alloc, &cases[number])? {
            return Ok(false);
        }
    }
    Ok(true)
}

#[test]
fn few_rows_go(rt: HostRuntime) {
    assert!(rt; all_go(rt.alloc(), &ONE_ROW) == Ok(true));
    assert!(rt; all_go(rt.alloc(), &TWO_ROWS) == Ok(true));
}

#[test]
fn three_rows_go(rt: HostRuntime) {
    assert!(rt; all_go(rt.alloc(), &THREE_ROWS) == Ok(true));
}

#[test]
fn three_rows_with_wide_numbers_go(rt: HostRuntime) {
    assert!(rt; all_go(rt.alloc(), &THREE_ROWS_WIDE) == Ok(true));
}

#[test]
fn five_rows_go(rt: HostRuntime) {
    assert!(rt; all_go(rt.alloc(), &FIVE_ROWS) == Ok(true));
}
