use crate::rows::lower_row;
use ps_runs::{column_of, homes_of, world_cost};
use ps_simplex::Phase;
use ps_table::Home;
use std::alloc::Global;
use std::test::*;

// Truth values of the nodes, whether the evidence `b` is true, and the row's entry:
// -4*[a & b] + [b].
const COLUMNS: [([bool; 3], i64, i64); 3] = [
    ([true, true, true], 1, -3),
    ([false, true, false], 1, 1),
    ([true, false, false], 0, 0),
];

// Phases, whether the query is true, and the cost of its world.
const COSTS: [(Phase, bool, i8); 4] = [
    (Phase::One, true, 0),
    (Phase::Lower, true, 1),
    (Phase::Upper, true, -1),
    (Phase::Upper, false, 0),
];

fn is_cost(row: &(Phase, bool, i8)) -> bool {
    world_cost(row.0, 0, &[row.1]) == row.2
}

#[tactic(auto, using(crate::proofs::LowerRow::has_values))]
fn is_column(alloc: Global, row: &([bool; 3], i64, i64)) -> bool {
    let Ok(lower) = lower_row(alloc) else {
        return false;
    };
    match column_of(alloc, &row.0, &[lower], Some(1)) {
        Ok(column) => column.len() == 2 && column[0] == row.1 && column[1] == row.2,
        Err(_) => false,
    }
}

#[test]
fn columns_are_of_their_world(rt: HostRuntime) -> Result<(), Fail> {
    let alloc = rt.alloc();
    for row in &COLUMNS {
        assert!(rt; is_column(alloc, row));
    }
    Ok(())
}

fn are_homes(alloc: Global) -> bool {
    let Ok(lower) = lower_row(alloc) else {
        return false;
    };
    match homes_of(alloc, &[lower]) {
        Ok(homes) => homes.len() == 2 && homes[0] == Home::Artificial && homes[1] == Home::Slack,
        Err(_) => false,
    }
}

#[test]
fn homes_are_of_their_side(rt: HostRuntime) -> Result<(), Fail> {
    assert!(rt; are_homes(rt.alloc()));
    Ok(())
}

#[test]
fn sides_turn_the_query_round(rt: HostRuntime) -> Result<(), Fail> {
    for row in &COSTS {
        assert!(rt; is_cost(row));
    }
    Ok(())
}
