//! Tables whose entries turn from rows of whole numbers to fractions, and sums in such rows, worked
//! out by hand.

use super::carrying::{carries, costs_of};
use crate::tables::{adds, has_entry, has_value, pivots};
use ps_table::{Col, Costs, Home, Table};
use std::test::Fail;

/// 2^62, too large for a row of whole numbers.
const LARGE: i64 = 1 << 62;

/// 3 - 5 * 2^62.
const LOST: i128 = -23058430092136939517;

/// Makes a world of entry 3 basic, so that a world of entry 2^62 has entry 2^62/3 and one of entry
/// 6 has entry 2.
fn has_a_large_world(table: &mut Table) -> bool {
    adds(table, &[3])
        && pivots(table, 0, Col::World(1))
        && adds(table, &[LARGE])
        && adds(table, &[6])
}

/// Whether the row is 1/3, 1/3, 1, 2^62/3, 2.
fn is_of_a_large_world(table: &Table) -> bool {
    has_value(table, 0, (1, 3))
        && has_entry(table, 0, Col::Home(0), (1, 3))
        && has_entry(table, 0, Col::World(1), (1, 1))
        && has_entry(table, 0, Col::World(2), (LARGE as i128, 3))
        && has_entry(table, 0, Col::World(3), (2, 1))
}

/// Whether the row is 1/2^62, 1/2^62, 3/2^62, 1, 3/2^61.
fn is_divided(table: &Table) -> bool {
    has_value(table, 0, (1, LARGE as i128))
        && has_entry(table, 0, Col::Home(0), (1, LARGE as i128))
        && has_entry(table, 0, Col::World(1), (3, LARGE as i128))
        && has_entry(table, 0, Col::World(2), (1, 1))
        && has_entry(table, 0, Col::World(3), (3, 1 << 61))
}

/// Whether the world of cost 1 carries 1/2^62 of the home and 3/2^61 of the last world.
fn carries_quotients(table: &Table, costs: &Costs) -> bool {
    carries(table, costs, Col::Home(0), (1, LARGE as i128))
        && carries(table, costs, Col::World(3), (3, 1 << 61))
}

#[test]
fn a_pivot_on_a_large_world_turns_rows_to_fractions(rt: HostRuntime) -> Result<(), Fail> {
    let alloc = rt.alloc();
    let mut table = Table::new(alloc, &[Home::Artificial])?;
    let costs = costs_of(alloc, &[0], &[0, 1, 0])?;
    assert!(rt; has_a_large_world(&mut table) && is_of_a_large_world(&table));
    assert!(rt;
        pivots(&mut table, 0, Col::World(2))
            && is_divided(&table)
            && carries_quotients(&table, &costs)
    );
    Ok(())
}

/// Adds worlds of entries 2^62, 1 and 3, 5, and makes the first of them basic in the second row.
fn turns_by_a_pivot(table: &mut Table) -> bool {
    adds(table, &[LARGE, 1]) && adds(table, &[3, 5]) && pivots(table, 1, Col::World(1))
}

/// Whether the rows are 1, 1, -2^62, 0, 3 - 5 * 2^62 and 0, 0, 1, 1, 5.
fn is_turned_by_a_pivot(table: &Table) -> bool {
    has_value(table, 0, (1, 1))
        && has_entry(table, 0, Col::Home(0), (1, 1))
        && has_entry(table, 0, Col::Home(1), (-(1 << 62), 1))
        && has_entry(table, 0, Col::World(1), (0, 1))
        && has_entry(table, 0, Col::World(2), (LOST, 1))
        && has_value(table, 1, (0, 1))
        && has_entry(table, 1, Col::Home(0), (0, 1))
        && has_entry(table, 1, Col::Home(1), (1, 1))
        && has_entry(table, 1, Col::World(1), (1, 1))
        && has_entry(table, 1, Col::World(2), (5, 1))
}

#[test]
fn a_pivot_turns_rows_to_fractions(rt: HostRuntime) -> Result<(), Fail> {
    let alloc = rt.alloc();
    let mut table = Table::new(alloc, &[Home::Artificial, Home::Slack])?;
    let costs = costs_of(alloc, &[-1, 0], &[1, 0])?;
    assert!(rt; turns_by_a_pivot(&mut table) && is_turned_by_a_pivot(&table));
    assert!(rt;
        carries(&table, &costs, Col::World(2), (5 - LOST, 1))
            && carries(&table, &costs, Col::Home(1), ((1 << 62) + 1, 1))
    );
    Ok(())
}

/// Makes rows over 2 and 3, in which a world of entries 1 and 1 has entries 1/2 and 1/3.
fn is_over_two_and_three(table: &mut Table) -> bool {
    adds(table, &[2, 0])
        && pivots(table, 0, Col::World(1))
        && adds(table, &[0, 3])
        && pivots(table, 1, Col::World(2))
        && adds(table, &[1, 1])
        && has_entry(table, 0, Col::World(3), (1, 2))
        && has_entry(table, 1, Col::World(3), (1, 3))
}

#[test]
fn rows_of_two_denominators_are_added(rt: HostRuntime) -> Result<(), Fail> {
    let alloc = rt.alloc();
    let mut table = Table::new(alloc, &[Home::Artificial, Home::Slack])?;
    let both = costs_of(alloc, &[0, 0], &[1, 1, 0])?;
    let less = costs_of(alloc, &[0, 0], &[1, -1, 0])?;
    assert!(rt;
        is_over_two_and_three(&mut table)
            && carries(&table, &both, Col::World(3), (5, 6))
            && carries(&table, &less, Col::World(3), (1, 6))
            && carries(&table, &less, Col::Home(1), (-1, 3))
    );
    Ok(())
}
