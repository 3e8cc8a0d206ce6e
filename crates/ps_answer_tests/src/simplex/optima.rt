use super::*;
use std::test::Fail;

/// E. M. L. Beale 1955: the plain rule goes round.
const CYCLE: [CostColumn; 5] = [
    ([1.0, 0.0, 0.0, -1.0], 0.0),
    ([0.0, 0.25, 0.5, 0.0], -0.75),
    ([0.0, -60.0, -90.0, 0.0], 150.0),
    ([0.0, -0.04, -0.02, 1.0], -0.02),
    ([0.0, 9.0, 3.0, 0.0], 6.0),
];

/// V. Klee and G. J. Minty 1972: largest 100x + 10y + z where x is at most 1, 20x + y at most 100 and
/// 200x + 20y + z at most 10000.
const BENT_CUBE: [CostColumn; 4] = [
    ([1.0, -1.0, -100.0, -10000.0], 0.0),
    ([0.0, 1.0, 20.0, 200.0], -100.0),
    ([0.0, 0.0, 1.0, 20.0], -10.0),
    ([0.0, 0.0, 0.0, 1.0], -1.0),
];

fn four_rows_cost(alloc: Global, columns: &[CostColumn], cost: f64) -> Result<bool, AllocError> {
    let mut simplex = four_rows(alloc, columns)?;
    Ok(has_optimum(&mut simplex, cost))
}

#[test]
fn known_programs(rt: HostRuntime) -> Result<(), Fail> {
    assert!(rt; four_rows_cost(rt.alloc(), &CORNER, -36.0)?);
    assert!(rt; four_rows_cost(rt.alloc(), &CYCLE, -0.05)?);
    assert!(rt; four_rows_cost(rt.alloc(), &BENT_CUBE, -10000.0)?);
    Ok(())
}

#[test]
fn a_column_is_added_later(rt: HostRuntime) -> Result<(), Fail> {
    let mut simplex = four_rows(rt.alloc(), &CORNER[..2])?;
    assert!(rt; has_optimum(&mut simplex, -12.0));
    simplex.add_column(&CORNER[2].0, -5.0)?;
    assert!(rt; simplex.minimise(1000) == Ending::Optimal && costs(&simplex, -36.0));
    Ok(())
}

#[test]
fn rows_that_cannot_be_met(rt: HostRuntime) -> Result<(), Fail> {
    // Each column has more than 0 in the second row, half at least.
    let mut simplex = rows(rt.alloc(), 2)?;
    simplex.add_column(&[1.0, 1.0], 0.0)?;
    simplex.add_column(&[1.0, 0.5], 0.0)?;
    assert!(rt; simplex.start(0));
    assert!(rt; simplex.minimise(1000) == Ending::Optimal && costs(&simplex, 0.5));
    Ok(())
}

#[test]
fn no_least_cost(rt: HostRuntime) -> Result<(), Fail> {
    let mut simplex = rows(rt.alloc(), 2)?;
    simplex.add_column(&[1.0, 0.0], 0.0)?;
    simplex.add_column(&[0.0, -1.0], -1.0)?;
    assert_eq!(rt; ending(&mut simplex), Ending::Unbounded);
    Ok(())
}

/// No pivots are left, then there are enough.
fn stops_and_goes_on(simplex: &mut Simplex) -> bool {
    simplex.set_phase(Phase::Two);
    simplex.start(0)
        && simplex.minimise(0) == Ending::OutOfPivots
        && simplex.minimise(2) == Ending::Optimal
        && simplex.pivots() == 1
}

#[test]
fn out_of_pivots(rt: HostRuntime) -> Result<(), Fail> {
    let mut simplex = rows(rt.alloc(), 2)?;
    simplex.add_column(&[1.0, 0.0], 0.0)?;
    simplex.add_column(&[1.0, -1.0], -1.0)?;
    assert!(rt; stops_and_goes_on(&mut simplex));
    Ok(())
}

/// The least cost, and the same once the first row is replaced, so that all columns but the first count.
fn has_optimum_again(simplex: &mut Simplex, cost: f64, other: f64) -> bool {
    has_optimum(simplex, cost)
        && simplex.replace_row(0, &[0.0, 1.0, 1.0])
        && simplex.minimise(10) == Ending::Optimal
        && simplex.entries(1).first().copied().unwrap_or(0.0) == 1.0
        && costs(simplex, other)
}

#[test]
fn a_row_is_replaced(rt: HostRuntime) -> Result<(), Fail> {
    // Shares of three kinds, the last two of a group: the group has at most 2/5 of all, the second kind
    // at most 3/4 of the group. So it has at most 3/10 of all, and 3/4 where the group is 1.
    let mut simplex = rows(rt.alloc(), 3)?;
    simplex.add_column(&[1.0, -0.4, 0.0], 0.0)?;
    simplex.add_column(&[1.0, 0.6, 0.25], -1.0)?;
    simplex.add_column(&[1.0, 0.6, -0.75], 0.0)?;
    assert!(rt; has_optimum_again(&mut simplex, -0.3, -0.75));
    Ok(())
}

#[test]
fn values_below_0_are_brought_back(rt: HostRuntime) -> Result<(), Fail> {
    // Least 2x + 3y where x + y is at least 2: 4, from the slack's value -2.
    let mut simplex = Simplex::new(rt.alloc(), &[RowKind::AtMost], &[-2.0])?;
    simplex.add_column(&[-1.0], 2.0)?;
    simplex.add_column(&[-1.0], 3.0)?;
    simplex.set_phase(Phase::Two);
    assert!(rt; simplex.start_at(&[Column::Slack(0)]) && are_near(simplex.values(), &[-2.0]));
    assert!(rt; simplex.clean(10) == Ending::Optimal && costs(&simplex, 4.0));
    Ok(())
}
