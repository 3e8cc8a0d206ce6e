//! What rows carry of columns, worked out by hand.

use crate::tables::{adds, has_costs, is_fraction, is_inside, pivots};
use ps_io::List;
use ps_table::{Col, Costs, Home, Table};
use std::alloc::Global;
use std::test::Fail;

/// Costs of the columns, and what the rows carry of each column.
struct Case {
    homes: [i8; 2],
    worlds: [i8; 2],
    carried: [(i128, i128); 4],
}

const COLUMNS: [Col; 4] = [Col::Home(0), Col::Home(1), Col::World(1), Col::World(2)];

const CASES: [Case; 3] = [
    Case {
        homes: [1, 0],
        worlds: [1, -1],
        carried: [(1, 3), (0, 1), (1, 1), (1, 3)],
    },
    Case {
        homes: [0, -1],
        worlds: [-1, 1],
        carried: [(1, 3), (-1, 1), (-1, 1), (13, 3)],
    },
    Case {
        homes: [-1, 1],
        worlds: [0, 1],
        carried: [(-2, 3), (1, 1), (0, 1), (-14, 3)],
    },
];

/// Costs of homes and of worlds.
pub(crate) fn costs_of(alloc: Global, homes: &[i8], worlds: &[i8]) -> Result<Costs, Fail> {
    let mut of_homes = Vec::new(alloc);
    of_homes.extend_from_slice(homes)?;
    let mut of_worlds = Vec::new(alloc);
    of_worlds.extend_from_slice(worlds)?;
    Ok(Costs {
        homes: List::from_vec(of_homes),
        worlds: List::from_vec(of_worlds),
    })
}

/// Rows 1/3, 1/3, 0, 1, 1/3 and -2/3, -2/3, 1, 0, -14/3, where the first world and the second home
/// are basic.
fn is_made(table: &mut Table) -> bool {
    adds(table, &[3, 2]) && adds(table, &[1, -4]) && pivots(table, 0, Col::World(1))
}

/// Whether the rows carry so much of a column.
pub(crate) fn carries(table: &Table, costs: &Costs, col: Col, expected: (i128, i128)) -> bool {
    if !is_inside(table, col) || !has_costs(table, costs) {
        return false;
    }
    match table.carried(costs, col) {
        Ok(carried) => is_fraction(&carried, expected),
        Err(_) => false,
    }
}

/// Whether a row has this multiplier.
fn multiplies(table: &Table, costs: &Costs, row: u32, expected: (i128, i128)) -> bool {
    if row >= table.rows() || !has_costs(table, costs) {
        return false;
    }
    match table.multiplier(costs, row) {
        Ok(multiplier) => is_fraction(&multiplier, expected),
        Err(_) => false,
    }
}

/// Whether a column costs so much.
fn has_cost(table: &Table, costs: &Costs, col: Col, expected: i8) -> bool {
    is_inside(table, col)
        && has_costs(table, costs)
        && is_fraction(&table.cost(costs, col), (expected as i128, 1))
}

/// Whether the rows carry what the case says of each column.
fn carries_all(table: &Table, costs: &Costs, case: &Case) -> bool {
    for k in 0..4 {
        if !carries(table, costs, COLUMNS[k], case.carried[k]) {
            return false;
        }
    }
    true
}

/// Whether a row's multiplier and the costs of its columns are those of the case.
fn is_priced(table: &Table, costs: &Costs, case: &Case, row: usize) -> bool {
    row < 2
        && multiplies(table, costs, row as u32, case.carried[row])
        && has_cost(table, costs, COLUMNS[row], case.homes[row])
        && has_cost(table, costs, COLUMNS[2 + row], case.worlds[row])
}

/// Whether a table with the costs of the case is as it says.
fn is_case(table: &Table, costs: &Costs, case: &Case) -> bool {
    carries_all(table, costs, case)
        && is_priced(table, costs, case, 0)
        && is_priced(table, costs, case, 1)
}

#[test]
fn rows_carry_columns(rt: HostRuntime) -> Result<(), Fail> {
    let alloc = rt.alloc();
    let mut table = Table::new(alloc, &[Home::Artificial, Home::Slack])?;
    assert!(rt; is_made(&mut table));
    for case in &CASES {
        let costs = costs_of(alloc, &case.homes, &case.worlds)?;
        assert!(rt; is_case(&table, &costs, case));
    }
    Ok(())
}
