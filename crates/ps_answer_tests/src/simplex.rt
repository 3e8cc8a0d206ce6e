//! What no clause says: that the known optima of small programs are found.
ghost use Rattle.std.specs.Prelude.{◌<◌};
ghost use Rattle.ps_simplex_float.specs.declared.limits.TheConstants.{MOST_ROWS};

mod basis;
mod optima;

use ps_simplex_float::{Column, Ending, Phase, RowKind, Simplex};
use std::alloc::{AllocError, Global};

/// A column of a program of four rows, and its cost.
type CostColumn = ([f64; 4], f64);

/// Largest 3x + 5y where x is at most 4, 2y at most 12 and 3x + 2y at most 18. The right sides are those
/// of the first column, whose value is 1.
const CORNER: [CostColumn; 3] = [
    ([1.0, -4.0, -12.0, -18.0], 0.0),
    ([0.0, 1.0, 0.0, 3.0], -3.0),
    ([0.0, 0.0, 2.0, 2.0], -5.0),
];

/// The program of rows of which the first asks for 1 and the others for at most 0.
fn rows(alloc: Global, count: usize) -> Result<Simplex, AllocError>
    requires some { 0 < count }
    requires few { count < MOST_ROWS }
{
    let mut kinds = vec![in alloc; RowKind::AtMost; count]?;
    kinds[0] = RowKind::Equal;
    Simplex::new(alloc, &kinds, &[1.0])
}

/// The same with these columns.
fn four_rows(alloc: Global, columns: &[CostColumn]) -> Result<Simplex, AllocError> {
    let mut simplex = rows(alloc, 4)?;
    for (entries, cost) in columns {
        simplex.add_column(entries, *cost)?;
    }
    Ok(simplex)
}

/// Both phases, from the first column.
fn ending(simplex: &mut Simplex) -> Ending {
    if !simplex.start(0) {
        return Ending::Unstable;
    }
    simplex.set_phase(Phase::One);
    let first = simplex.minimise(1000);
    if first != Ending::Optimal {
        return first;
    }
    simplex.set_phase(Phase::Two);
    let second = simplex.minimise(1000);
    if second != Ending::Optimal {
        return second;
    }
    simplex.clean(1000)
}

/// Whether the cost is this, up to rounding.
fn costs(simplex: &Simplex, cost: f64) -> bool {
    (simplex.objective() - cost).abs() < 1e-9
}

/// Whether the least cost is found, and is this.
fn has_optimum(simplex: &mut Simplex, cost: f64) -> bool {
    ending(simplex) == Ending::Optimal && simplex.is_clean() && costs(simplex, cost)
}

/// Whether two rows of numbers are the same, up to rounding.
fn are_near(xs: &[f64], ys: &[f64]) -> bool {
    xs.len() == ys.len() && xs.iter().zip(ys).all(|(x, y)| (x - y).abs() < 1e-9)
}
