//! Which row a column takes. Where lengths differ, the further rows take no part.
ghost use Rattle.std.specs.Prelude.{◌<◌, length, IfSome};

use crate::column::Column;
use crate::limits::{FEASIBLE, LEAST_EXCHANGE, LEAST_INVERTED, LEAST_PIVOT};
use std::cmp::OrderedFloat;

/// The row of those not taken in which a direction has its largest entry.
pub(crate) fn free_row(is_taken: &[bool], direction: &[f64]) -> Option<usize>
    ensures rows { IfSome result (λ row. row < length is_taken.now) }
    ensures direction { IfSome result (λ row. row < length direction.now) }
{
    is_taken
        .iter()
        .zip(direction)
        .enumerate()
        .filter(|(_, (is_taken, entry))| !**is_taken && entry.abs() > LEAST_INVERTED)
        .max_by_key(|(_, (_, entry))| OrderedFloat(entry.abs()))
        .map(|(row, _)| row)
}

/// The row of an artificial column in which a direction has its largest entry.
pub(crate) fn artificial_row(columns: &[Column], direction: &[f64]) -> Option<usize>
    ensures rows { IfSome result (λ row. row < length columns.now) }
    ensures direction { IfSome result (λ row. row < length direction.now) }
{
    columns
        .iter()
        .zip(direction)
        .enumerate()
        .filter(|(_, (column, entry))| column.is_artificial() && entry.abs() > LEAST_EXCHANGE)
        .max_by_key(|(_, (_, entry))| OrderedFloat(entry.abs()))
        .map(|(row, _)| row)
}

/// The row of the least value, where one is below 0.
pub(crate) fn infeasible_row(values: &[f64]) -> Option<usize>
    ensures { IfSome result (λ row. row < length values.now) }
{
    (0..values.len())
        .filter(|row| values[*row] < -FEASIBLE)
        .min_by_key(|row| OrderedFloat(values[*row]))
}

/// How far a column may be raised, with each value let fall below 0 by the tolerance.
fn longest_step(values: &[f64], direction: &[f64]) -> f64 {
    let mut most = f64::MAX;
    for (value, entry) in values.iter().zip(direction) {
        if *entry > LEAST_PIVOT {
            most = most.min((value.max(0.0) + FEASIBLE) / entry);
        }
    }
    most
}

/// The row that blocks a column: of those that do so before any value falls below 0 by more than the
/// tolerance, the one of the largest entry, where artificial columns count four times.
pub(crate) fn leaving_row(columns: &[Column], values: &[f64], direction: &[f64]) -> Option<usize>
    ensures rows { IfSome result (λ row. row < length values.now) }
    ensures direction { IfSome result (λ row. row < length direction.now) }
{
    let most = longest_step(values, direction);
    values
        .iter()
        .zip(direction)
        .zip(columns)
        .enumerate()
        .filter(|(_, ((value, entry), _))| {
            **entry > LEAST_PIVOT && value.max(0.0) / **entry <= most
        })
        .max_by_key(|(_, ((_, entry), column))| OrderedFloat(**entry * column.weight()))
        .map(|(row, _)| row)
}
