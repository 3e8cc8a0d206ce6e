// The expected answers come from another reader, by regular expressions over unbounded integers.
use ps_log::{GoalError, read_goal};
use ps_pb::{Constraint, Lit};
use std::alloc::Global;

const WITHOUT_END: [&[u8]; 2] = [b"", b"g 21 10 1 0"];

const BAD_BYTES: [&[u8]; 5] = [
    b"x 1 0\n",
    b"s 7 0 6 0\n",
    b"g\t1 0\n",
    b"g 1 0\r\n",
    b"g 1 0 1 1a 0\n",
];

const OTHER_LINES: [&[u8]; 22] = [
    b"\n",
    b"g\n",
    b"g 1\n",
    b"g 0\n",
    b"g  1 0\n",
    b"g 1 0 \n",
    b" g 1 0\n",
    b"g 01 0\n",
    b"g -0 0\n",
    b"g 1 2 0\n",
    b"g 1 0 1 0\n",
    b"g 1 -2 1 0\n",
    b"g 1 2 0 0\n",
    b"g 1 2 1 2 1 0\n",
    b"g 1 2 2 2 1 0\n",
    b"g 1 2 1 2 -1 0\n",
    b"g 1 2 1 3 2\n",
    b"gg 1 0\n",
    b"g1 0\n",
    b"g 1 2 -3 2 3 0\n",
    b"g 1 1 340282366920938463463374607431768211457 1 340282366920938463463374607431768211456 0\n",
    b"g 1 1 340282366920938463463374607431768211456 1 -340282366920938463463374607431768211456 0\n",
];

const PAST_LIMITS: [&[u8]; 8] = [
    b"g 1 1 340282366920938463463374607431768211456 1 340282366920938463463374607431768211457 0\n",
    b"g 1 1 1025 0\n",
    b"g 1 1 -1025 0\n",
    b"g 85070591730234615865843651857942052865 0\n",
    b"g -85070591730234615865843651857942052865 0\n",
    b"g 1 85070591730234615865843651857942052864 1 0\n",
    b"g 42535295865117307932921825928971026432 21267647932558653966460912964485513216 1 21267647932558653966460912964485513217 -2 0\n",
    b"g 1 1 9 1 10 1 99999999999999999999999999999999999999999 0\n",
];

// A line, the degree and the terms of its goal, and how many bytes the line has.
const GOALS: [(&[u8], i128, &[(i32, i128)], u64); 7] = [
    (
        b"g 21 10 1 10 -2 10 3 0\n",
        21,
        &[(1, 10), (-2, 10), (3, 10)],
        23,
    ),
    (b"g 0 0\nmore\n", 0, &[], 6),
    (b"g -5 7 1024 0\n", -5, &[(1024, 7)], 14),
    (
        b"g 85070591730234615865843651857942052864 0\n",
        85_070_591_730_234_615_865_843_651_857_942_052_864,
        &[],
        43,
    ),
    (
        b"g -85070591730234615865843651857942052864 0\n",
        -85_070_591_730_234_615_865_843_651_857_942_052_864,
        &[],
        44,
    ),
    (
        b"g 42535295865117307932921825928971026432 21267647932558653966460912964485513216 1 21267647932558653966460912964485513216 -2 0\n",
        42_535_295_865_117_307_932_921_825_928_971_026_432,
        &[
            (1, 21_267_647_932_558_653_966_460_912_964_485_513_216),
            (-2, 21_267_647_932_558_653_966_460_912_964_485_513_216),
        ],
        126,
    ),
    (
        b"g 1 1 9 1 -10 1 100 0\n",
        1,
        &[(9, 1), (-10, 1), (100, 1)],
        22,
    ),
];

fn are_refused(alloc: Global, lines: &[&[u8]], why: GoalError) -> bool {
    for line in lines {
        match read_goal(alloc, line) {
            Ok(_) => return false,
            Err(found) => {
                if found != why {
                    return false;
                }
            }
        }
    }
    true
}

#[test]
fn lines_are_refused(rt: HostRuntime) {
    let alloc = rt.alloc();
    assert!(rt; are_refused(alloc, &WITHOUT_END, GoalError::Truncated));
    assert!(rt; are_refused(alloc, &BAD_BYTES, GoalError::BadByte));
}

#[test]
fn other_lines_are_refused(rt: HostRuntime) {
    let alloc = rt.alloc();
    assert!(rt; are_refused(alloc, &OTHER_LINES, GoalError::NotCanonical));
    assert!(rt; are_refused(alloc, &PAST_LIMITS, GoalError::TooLarge));
}

fn has_terms(terms: &[(Lit, i128)], rows: &[(i32, i128)]) -> bool {
    if terms.len() != rows.len() {
        return false;
    }
    for (i, term) in terms.iter().enumerate() {
        if term.0.number() != rows[i].0 || term.1 != rows[i].1 {
            return false;
        }
    }
    true
}

fn is_goal(goal: &Constraint, degree: i128, rows: &[(i32, i128)]) -> bool {
    goal.degree() == degree && has_terms(goal.terms().as_slice(), rows)
}

fn are_read(alloc: Global) -> bool {
    for (line, degree, rows, count) in &GOALS {
        match read_goal(alloc, line) {
            Ok((goal, read)) => {
                if read != *count || !is_goal(&goal, *degree, rows) {
                    return false;
                }
            }
            Err(_) => return false,
        }
    }
    true
}

#[test]
fn goals_are_read(rt: HostRuntime) {
    assert!(rt; are_read(rt.alloc()));
}

// A goal line of 20,000 variables that rise, and an end.
fn rising_line(alloc: Global, end: &[u8]) -> Option<Vec<u8>> {
    let mut line = Vec::new(alloc);
    line.extend_from_slice(b"g 21").ok()?;
    for number in 1..20_001u32 {
        line.extend_from_slice(b" 1 ").ok()?;
        let mut digits = itoa::Buffer::new();
        line.extend_from_slice(digits.format(number).as_bytes())
            .ok()?;
    }
    line.extend_from_slice(end).ok()?;
    Some(line)
}

// What stands behind 20,000 terms whose variables rise, and why the line is refused.
const LONG_ENDS: [(&[u8], GoalError); 12] = [
    (b" 0\n", GoalError::TooLarge),
    (b" 3 -20001 0\n", GoalError::TooLarge),
    (
        b" 123456789012345678901234567890 123456789012345678901234567890 0\n",
        GoalError::TooLarge,
    ),
    (b"\n", GoalError::NotCanonical),
    (b" 0 0\n", GoalError::NotCanonical),
    (b" 3 20001\n", GoalError::NotCanonical),
    (b" 3 20000 0\n", GoalError::NotCanonical),
    (b" 3 -7 0\n", GoalError::NotCanonical),
    (b" 0 20001 0\n", GoalError::NotCanonical),
    (b" -3 20001 0\n", GoalError::NotCanonical),
    (b" 3 020001 0\n", GoalError::NotCanonical),
    (b" 3 20001 0x\n", GoalError::BadByte),
];

fn are_long_refused(alloc: Global) -> bool {
    for (end, why) in &LONG_ENDS {
        match rising_line(alloc, end) {
            Some(line) => {
                if read_goal(alloc, line.as_slice()).err() != Some(*why) {
                    return false;
                }
            }
            None => return false,
        }
    }
    true
}

#[test]
fn longer_lines_than_are_written_are_refused(rt: HostRuntime) {
    assert!(rt; are_long_refused(rt.alloc()));
}
