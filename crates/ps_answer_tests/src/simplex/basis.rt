use super::*;
use std::test::Fail;

/// The basis at x = 4 and y = 0.
const AT_FOUR: [Column; 4] = [
    Column::Added(0),
    Column::Added(1),
    Column::Slack(2),
    Column::Slack(3),
];

/// Along x from the start, where the first limit blocks; y has half as much of the second limit's slack.
fn goes_along_x(simplex: &mut Simplex) -> bool {
    simplex.start(0)
        && simplex.force(Column::Added(1))
        && simplex.basis() == AT_FOUR.as_slice()
        && are_near(simplex.values(), &[1.0, 4.0, 12.0, 6.0])
        && are_near(simplex.direction(Column::Added(2)), &[0.0, 0.0, 2.0, 2.0])
}

#[test]
fn a_named_column_enters(rt: HostRuntime) -> Result<(), Fail> {
    let mut simplex = four_rows(rt.alloc(), &CORNER)?;
    assert!(rt; goes_along_x(&mut simplex));
    Ok(())
}

/// Columns that no call makes basic: one that no row blocks, one that isn't there, the slack of an
/// equality, a row that isn't there, and an entry 0.
fn refuses(simplex: &mut Simplex) -> bool {
    !simplex.force(Column::Added(1))
        && !simplex.force(Column::Added(2))
        && !simplex.force(Column::Slack(0))
        && !simplex.exchange(2, Column::Added(1))
        && !simplex.exchange(0, Column::Added(1))
        && simplex.pivots() == 0
}

#[test]
fn refused_columns(rt: HostRuntime) -> Result<(), Fail> {
    let mut simplex = rows(rt.alloc(), 2)?;
    simplex.add_column(&[1.0, 0.0], 0.0)?;
    simplex.add_column(&[0.0, -1.0], -1.0)?;
    assert!(rt; simplex.start(0) && refuses(&mut simplex));
    Ok(())
}

/// Makes y basic in the last row: x is 0 and y 9, past the limit 6.
fn exchanges(simplex: &mut Simplex) -> bool {
    simplex.exchange(3, Column::Added(2))
        && simplex.is_basic(Column::Added(2))
        && !simplex.is_basic(Column::Slack(3))
        && are_near(simplex.values(), &[1.0, 4.0, -6.0, 9.0])
}

#[test]
fn a_copy_goes_its_own_way(rt: HostRuntime) -> Result<(), Fail> {
    let mut simplex = four_rows(rt.alloc(), &CORNER)?;
    assert!(rt; simplex.start(0));
    let mut copy = simplex.copy(rt.alloc())?;
    assert!(rt; exchanges(&mut copy) && has_optimum(&mut copy, -36.0));
    assert!(rt; exchanges(&mut simplex));
    Ok(())
}

/// Perturbed values come back, and the least cost with them.
fn comes_back(simplex: &mut Simplex) -> bool {
    simplex.perturb();
    !simplex.is_clean() && simplex.reset() && simplex.is_clean() && costs(simplex, -36.0)
}

#[test]
fn perturbation_is_undone(rt: HostRuntime) -> Result<(), Fail> {
    let mut simplex = four_rows(rt.alloc(), &CORNER)?;
    assert!(rt; has_optimum(&mut simplex, -36.0) && comes_back(&mut simplex));
    Ok(())
}
