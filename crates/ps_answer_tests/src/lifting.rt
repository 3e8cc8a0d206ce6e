//! Systems whose solutions were worked by hand.
use ps_io::{List, NoMemory};
use ps_lifting::{Solution, inverse_of, solve};
use std::alloc::Global;
use std::test::*;

/// Rows, right sides, and the numerators and the denominator of the solution.
type Solved = (
    &'static [&'static [i64]],
    &'static [i64],
    &'static [i128],
    i128,
);

const TWO_45: i64 = 35184372088832;

const TWO_90: i128 = 1237940039285380274899124224;

const SOLVED: [Solved; 5] = [
    (&[&[2, 1], &[1, 3]], &[1, 2], &[1, 3], 5),
    (&[&[0, -7], &[1000000, 0]], &[1, 1], &[7, -1000000], 7000000),
    (
        &[&[1, 2, 3], &[0, 1, 4], &[5, 6, 0]],
        &[1, 0, 2],
        &[-14, 12, -3],
        1,
    ),
    (
        &[&[1, -TWO_45], &[0, 1]],
        &[0, TWO_45],
        &[TWO_90, 35184372088832],
        1,
    ),
    (
        &[&[TWO_45, 0], &[-1, TWO_45]],
        &[1, 0],
        &[35184372088832, 1],
        TWO_90,
    ),
];

/// Rows and right sides: singular systems, one whose numerators pass 2^90, some of a wrong shape,
/// and one whose determinant is the prime.
const UNSOLVED: [(&'static [&'static [i64]], &'static [i64]); 7] = [
    (&[&[2, 1], &[2, 1]], &[1, 1]),
    (&[&[1, 2], &[2, 4]], &[1, 2]),
    (&[&[1, 2, 3], &[4, 5, 6], &[5, 7, 9]], &[1, 1, 2]),
    (&[&[1, -TWO_45], &[0, 1]], &[0, TWO_45 + 1]),
    (&[&[1, 0, 0], &[0, 1, 0]], &[1, 1]),
    (&[&[1, 0], &[0, 1]], &[1, 1, 1]),
    (&[&[2305843009213693951]], &[1]),
];

fn list_of(alloc: Global, row: &[i64]) -> Result<List<i64>, NoMemory> {
    let mut list = List::new(alloc);
    for x in row {
        list.push(*x)?;
    }
    Ok(list)
}

fn rows_of(alloc: Global, rows: &[&[i64]]) -> Result<Vec<List<i64>>, NoMemory> {
    let mut found = Vec::new(alloc);
    for row in rows {
        found.push(list_of(alloc, row)?)?;
    }
    Ok(found)
}

fn solution_of(
    alloc: Global,
    rows: &[&[i64]],
    right: &[i64],
) -> Result<Option<Solution>, NoMemory> {
    let rows = rows_of(alloc, rows)?;
    match inverse_of(alloc, rows.as_slice())? {
        Some(inverse) => solve(alloc, rows.as_slice(), &inverse, right),
        None => Ok(None),
    }
}

fn is_solution(solution: &Solution, numerators: &[i128], denominator: i128) -> bool {
    solution.denominator == denominator && solution.numerators.as_slice() == numerators
}

fn is_solved(alloc: Global, row: &Solved) -> bool {
    match solution_of(alloc, row.0, row.1) {
        Ok(Some(solution)) => is_solution(&solution, row.2, row.3),
        _ => false,
    }
}

#[test]
fn solutions_are_found(rt: HostRuntime) {
    for row in SOLVED {
        assert!(rt; is_solved(rt.alloc(), &row));
    }
}

fn is_unsolved(alloc: Global, rows: &[&[i64]], right: &[i64]) -> bool {
    match solution_of(alloc, rows, right) {
        Ok(None) => true,
        _ => false,
    }
}

#[test]
fn no_solution_is_found(rt: HostRuntime) {
    for (rows, right) in UNSOLVED {
        assert!(rt; is_unsolved(rt.alloc(), rows, right));
    }
}

// The solution of the system of a matrix's columns, by the inverse of its rows.
fn solution_of_columns(alloc: Global) -> Result<Option<Solution>, NoMemory> {
    let rows = rows_of(alloc, &[&[2, 1], &[0, 3]])?;
    let columns = rows_of(alloc, &[&[2, 0], &[1, 3]])?;
    match inverse_of(alloc, rows.as_slice())? {
        Some(inverse) => {
            let inverse = inverse.transpose(alloc)?;
            solve(alloc, columns.as_slice(), &inverse, &[1, 1])
        }
        None => Ok(None),
    }
}

#[test]
fn columns_are_solved_by_the_transposed_inverse(rt: HostRuntime) -> Result<(), Fail> {
    let found = solution_of_columns(rt.alloc())?;
    assert!(rt; found.is_some_and(|solution| is_solution(&solution, &[3, 1], 6)));
    Ok(())
}
