//! Solutions modulo the fourth power of the prime.
use crate::inverse::{Inverse, Residues};
use crate::number::Number;
use crate::residue::{PRIME, Residue};
use ps_io::{List, NoMemory};
use std::alloc::Global;

// The sum of dot_product of residues.
fn dot(row: &[Residue], x: &[Residue]) -> Residue {
    if row.len() != x.len() {
        return Residue::zero();
    }
    let mut sum = Residue::zero();
    for j in 0..row.len() {
        sum = sum.plus_product(row[j], x[j]);
    }
    sum
}

fn residues_of(alloc: Global, left: &[i128]) -> Result<Residues, NoMemory> {
    let mut found = Vec::new(alloc);
    for x in left {
        found.push(Residue::of_whole(*x))?;
    }
    Ok(found)
}

// The digits that solve what is left, modulo the prime.
fn next_digits(alloc: Global, inverse: &Inverse, left: &[i128]) -> Result<Vec<u64>, NoMemory> {
    let residues = residues_of(alloc, left)?;
    let mut found = Vec::new(alloc);
    for row in &inverse.rows {
        found.push(dot(row, residues.as_slice()).get())?;
    }
    Ok(found)
}

// What is left of a right side once the row's digits are taken away, over the prime.
fn row_left(left: i128, row: &[i64], digits: &[u64]) -> i128 {
    let mut rest = left;
    if row.len() == digits.len() {
        for j in 0..row.len() {
            rest = rest.wrapping_sub((row[j] as i128).wrapping_mul(digits[j] as i128));
        }
    }
    rest / PRIME as i128
}

fn all_left(
    alloc: Global,
    left: &[i128],
    rows: &[List<i64>],
    digits: &[u64],
) -> Result<Vec<i128>, NoMemory> {
    let mut found = Vec::new(alloc);
    for (rest, row) in left.iter().zip(rows) {
        found.push(row_left(*rest, row.as_slice(), digits))?;
    }
    Ok(found)
}

fn wide_of(alloc: Global, right: &[i64]) -> Result<Vec<i128>, NoMemory> {
    let mut found = Vec::new(alloc);
    for x in right {
        found.push(*x as i128)?;
    }
    Ok(found)
}

fn numbers_of(
    alloc: Global,
    ones: &[u64],
    primes: &[u64],
    squares: &[u64],
    cubes: &[u64],
) -> Result<Vec<Number>, NoMemory> {
    let mut found = Vec::new(alloc);
    if primes.len() != ones.len() || squares.len() != ones.len() || cubes.len() != ones.len() {
        return Ok(found);
    }
    for i in 0..ones.len() {
        found.push(Number {
            ones: ones[i],
            primes: primes[i],
            squares: squares[i],
            cubes: cubes[i],
        })?;
    }
    Ok(found)
}

/// The solution of a system modulo the fourth power of the prime.
pub fn lift(
    alloc: Global,
    rows: &[List<i64>],
    inverse: &Inverse,
    right: &[i64],
) -> Result<Vec<Number>, NoMemory> {
    let left = wide_of(alloc, right)?;
    let ones = next_digits(alloc, inverse, left.as_slice())?;
    let left = all_left(alloc, left.as_slice(), rows, ones.as_slice())?;
    let primes = next_digits(alloc, inverse, left.as_slice())?;
    let left = all_left(alloc, left.as_slice(), rows, primes.as_slice())?;
    let squares = next_digits(alloc, inverse, left.as_slice())?;
    let left = all_left(alloc, left.as_slice(), rows, squares.as_slice())?;
    let cubes = next_digits(alloc, inverse, left.as_slice())?;
    numbers_of(
        alloc,
        ones.as_slice(),
        primes.as_slice(),
        squares.as_slice(),
        cubes.as_slice(),
    )
}
