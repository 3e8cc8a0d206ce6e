//! Pivots that are enough.
use super::{BIRDS, ENOUGH, SOLVE, WIDE, solved};
use ps_io::NoMemory;
use std::alloc::Global;
use std::test::*;

// Problems without their frame whose report stays the same with as many pivots as are enough.
const SAME: [&str; 4] = [
    "P(a) = 7/10; P(a -> b) = 9/10; query P(b);",
    "P(a) = 1/3; P(a) = 2/3;",
    BIRDS,
    WIDE,
];

// Numbers of atoms: 2^63 fits the type in which worlds are counted, and 2^64 doesn't.
const ATOMS: [u64; 3] = [63, 64, 127];

// Whether the report stays the same with as many pivots as are enough.
fn is_same(alloc: Global, problem: &str) -> bool {
    match (
        solved(alloc, SOLVE, problem),
        solved(alloc, ENOUGH, problem),
    ) {
        (Ok((status, report, _)), Ok((other, enough, _))) => {
            status == other && report.as_str() == enough.as_str()
        }
        _ => false,
    }
}

// A sentence over so many atoms, and a query.
fn over_atoms(alloc: Global, count: u64) -> Result<String, NoMemory> {
    let mut text = String::from_str(alloc, "P(a0")?;
    for i in 1..count {
        text.push_str(format!(in alloc; " | a{i}")?.as_str())?;
    }
    text.push_str(") <= 1/2; query P(a0);")?;
    Ok(text)
}

// Whether the report on so many atoms stays the same.
fn is_same_over(alloc: Global, count: u64) -> bool {
    match over_atoms(alloc, count) {
        Ok(problem) => is_same(alloc, problem.as_str()),
        Err(_) => false,
    }
}

fn all_are_same(alloc: Global) -> bool {
    let mut right = true;
    for problem in SAME {
        right = right && is_same(alloc, problem);
    }
    for count in ATOMS {
        right = right && is_same_over(alloc, count);
    }
    right
}

#[test]
fn enough_pivots_change_no_finished_report(rt: HostRuntime) {
    assert!(rt; all_are_same(rt.alloc()));
}
