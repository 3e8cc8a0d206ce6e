//! The worked example: one row whose home is artificial.

mod carrying;
mod refusals;
mod sums;
mod turning;

use crate::tables::{adds, has_entry, has_value, pivots};
use ps_meaning::PRINTED_LIMIT;
use ps_table::{Col, Home, Table, can_be_printed};
use std::test::Fail;

/// A world of entry 3 becomes basic, so the value is 1/3, and a world of entry 2 has entry 2/3.
fn one_row(table: &mut Table) -> bool {
    adds(table, &[3])
        && pivots(table, 0, Col::World(1))
        && has_value(table, 0, (1, 3))
        && adds(table, &[2])
        && has_entry(table, 0, Col::World(2), (2, 3))
}

#[test]
fn a_pivot_makes_a_world_basic(rt: HostRuntime) -> Result<(), Fail> {
    let mut table = Table::new(rt.alloc(), &[Home::Artificial])?;
    assert!(rt; one_row(&mut table));
    Ok(())
}

#[test]
fn the_limit_of_printed_numbers(rt: HostRuntime) {
    let limit = PRINTED_LIMIT as i128;
    assert!(rt; can_be_printed(limit) && can_be_printed(-limit));
    assert!(rt; !can_be_printed(limit + 1) && !can_be_printed(-limit - 1));
}
