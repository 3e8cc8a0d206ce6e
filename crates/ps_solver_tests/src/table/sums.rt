//! Sums over the rows that are refused. The operands were computed by Python's `fractions`.

use super::refusals::{HUGE, LARGE, is_chained};
use crate::tables::{adds, has_costs, is_fraction, is_inside, pivots};
use ps_frac::{Fraction, Op};
use ps_io::List;
use ps_table::{Col, Costs, Home, Place, Table, WideAt};
use std::alloc::Global;
use std::test::Fail;

/// Costs of 1 for a home and a world, and of 0 for the rest.
fn costs(alloc: Global, home: usize, world: usize) -> Result<Costs, Fail> {
    let mut homes = [0i8; 9];
    let mut worlds = [0i8; 8];
    if home < 9 && world < 8 {
        homes[home] = 1;
        worlds[world] = 1;
    }
    let mut home_list = Vec::new(alloc);
    home_list.extend_from_slice(&homes)?;
    let mut world_list = Vec::new(alloc);
    world_list.extend_from_slice(&worlds)?;
    Ok(Costs {
        homes: List::from_vec(home_list),
        worlds: List::from_vec(world_list),
    })
}

/// Whether the sum of two huge numbers was refused in row 8 of home 1.
fn is_sum_refused(answer: Result<Fraction, WideAt>) -> bool {
    match answer {
        Err(wide) => {
            let col = Col::Home(1);
            wide.place == Place::Cost { col, row: 8 }
                && wide.op == Op::Add
                && is_fraction(&wide.left, (HUGE, 1))
                && is_fraction(&wide.right, (HUGE, 1))
        }
        Ok(_) => false,
    }
}

/// Makes the table whose rows carry too much of home 1.
fn is_heavy(table: &mut Table) -> bool {
    is_chained(table, 1, LARGE)
        && adds(table, &[0, 0, 0, 0, 0, 0, 0, 1, -1])
        && pivots(table, 7, Col::World(7))
}

/// Whether what is carried of home 1, and its multiplier, are refused.
fn are_sums_refused(table: &Table, costs: &Costs) -> bool {
    has_costs(table, costs)
        && is_inside(table, Col::Home(1))
        && is_sum_refused(table.carried(costs, Col::Home(1)))
        && is_sum_refused(table.multiplier(costs, 1))
}

#[test]
fn wide_sums_are_named(rt: HostRuntime) -> Result<(), Fail> {
    let alloc = rt.alloc();
    let costs = costs(alloc, 8, 6)?;
    let mut table = Table::new(alloc, &[Home::Slack; 9])?;
    assert!(rt; is_heavy(&mut table));
    assert!(rt; are_sums_refused(&table, &costs));
    Ok(())
}

/// The entries of a world whose price is refused, with the place and the right operand; the left
/// one is huge.
struct Price {
    entries: [i64; 9],
    place: Place,
    op: Op,
    right: (i128, i128),
}

const PRICES: [Price; 2] = [
    Price {
        entries: [0, 2, 0, 0, 0, 0, 0, 0, 0],
        place: Place::PriceTimes { world: 8, home: 1 },
        op: Op::Mul,
        right: (2, 1),
    },
    Price {
        entries: [0, 1, -LARGE, 0, 0, 0, 0, 0, 0],
        place: Place::PricePlus { world: 8, home: 2 },
        op: Op::Add,
        right: (HUGE, 1),
    },
];

/// Makes the table whose home 1 has a huge multiplier where world 7 costs 1, with a world more.
fn is_dear(table: &mut Table, price: &Price) -> bool {
    is_chained(table, 1, LARGE)
        && adds(table, &[0, 0, 0, 0, 0, 0, 0, 1, 0])
        && pivots(table, 7, Col::World(7))
        && adds(table, &price.entries)
}

/// Whether the price of world 8 is refused as it should be.
fn is_price_refused(table: &Table, costs: &Costs, price: &Price) -> bool {
    if !has_costs(table, costs) || !is_inside(table, Col::World(8)) {
        return false;
    }
    match table.carried(costs, Col::World(8)) {
        Err(wide) => {
            wide.place == price.place
                && wide.op == price.op
                && is_fraction(&wide.left, (HUGE, 1))
                && is_fraction(&wide.right, price.right)
        }
        Ok(_) => false,
    }
}

#[test]
fn wide_prices_are_named(rt: HostRuntime) -> Result<(), Fail> {
    let alloc = rt.alloc();
    let costs = costs(alloc, 8, 6)?;
    for price in &PRICES {
        let mut table = Table::new(alloc, &[Home::Slack; 9])?;
        assert!(rt; is_dear(&mut table, price));
        assert!(rt; is_price_refused(&table, &costs, price));
    }
    Ok(())
}

/// Whether the price of a world names the multiplier that is refused.
fn is_multiplier_named(table: &mut Table, costs: &Costs) -> bool {
    let added = is_heavy(table) && adds(table, &[0, 1, 0, 0, 0, 0, 0, 0, 0]);
    added
        && has_costs(table, costs)
        && is_inside(table, Col::World(8))
        && is_sum_refused(table.carried(costs, Col::World(8)))
}

#[test]
fn wide_multipliers_are_named_in_prices(rt: HostRuntime) -> Result<(), Fail> {
    let alloc = rt.alloc();
    let costs = costs(alloc, 8, 6)?;
    let mut table = Table::new(alloc, &[Home::Slack; 9])?;
    assert!(rt; is_multiplier_named(&mut table, &costs));
    Ok(())
}
