//! The optimum of a text, which the check accepts.
use ps_max_answer::{MaxAnswer, check_max};
use ps_optimum::optimum;
use ps_wcnf::read_wcnf;
use std::alloc::Global;
use std::test::*;

const CONFLICTS: u32 = 20_000;

// Clauses with one optimum, its cost, and its assignment.
const SINGLE: [(&str, i128, &[bool]); 7] = [
    ("", 0, &[]),
    ("4 0\nc so\n", 4, &[]),
    ("h 1 2 0\n3 -1 0\n2 -2 0\n", 2, &[false, true]),
    ("5 1 0\r\n7 -1 0", 5, &[false]),
    ("2 1 1 0\n", 0, &[true]),
    ("h -001 0\n\t9 1  2 0 \n", 0, &[false, true]),
    ("h 1 2 0\nh -1 -2 0\n1 1 -2 0\n", 0, &[true, false]),
];

// Clauses with several optima, and the least cost.
const SEVERAL: [(&str, i128); 3] = [
    ("3 1 -1 0\n", 0),
    ("1 1 2 0\n1 -1 0\n1 -2 0\nh -1 -2 0\n", 1),
    (
        "4611686018427387904 1 0\n4611686018427387904 -1 0\n",
        1 << 62,
    ),
];

const UNSATISFIABLE: [&str; 3] = [
    "h 0\n",
    "h 1 0\nh -1 0\n",
    "h 1 2 0\nh 1 -2 0\nh -1 0\n7 2 0\n",
];

// Each assignment misses one of the clauses, which hints alone don't show.
const ALL_FOUR: &str = "h 1 2 0\nh 1 -2 0\nh -1 2 0\nh -1 -2 0\n";

// The answer, where it is accepted.
fn accepted_answer(alloc: Global, input: &str, conflicts: u32) -> Option<MaxAnswer> {
    let text = read_wcnf(alloc, input.as_bytes()).ok()?;
    let answer = optimum(alloc, &text, u64::from(conflicts)).ok()?;
    check_max(alloc, &text, &answer).ok()?;
    Some(answer)
}

fn is_single(alloc: Global, input: &str, least: i128, values: &[bool]) -> bool {
    match accepted_answer(alloc, input, CONFLICTS) {
        Some(
            MaxAnswer::Optimum {
                cost,
                assignment,
                ..
            },
        ) => cost == least && assignment.as_slice() == values,
        _ => false,
    }
}

fn costs_least(alloc: Global, input: &str, least: i128) -> bool {
    match accepted_answer(alloc, input, CONFLICTS) {
        Some(MaxAnswer::Optimum { cost, .. }) => cost == least,
        _ => false,
    }
}

fn is_unsatisfiable(alloc: Global, input: &str, conflicts: u32) -> bool {
    match accepted_answer(alloc, input, conflicts) {
        Some(MaxAnswer::Unsatisfiable { .. }) => true,
        _ => false,
    }
}

fn is_open(alloc: Global, input: &str, conflicts: u32) -> bool {
    match accepted_answer(alloc, input, conflicts) {
        Some(MaxAnswer::Open { limit, best, .. }) => limit == u64::from(conflicts)
            && best.is_none(),
        _ => false,
    }
}

#[test]
fn optima_are_found(rt: HostRuntime) {
    let alloc = rt.alloc();
    assert!(rt; SINGLE.iter().all(|(input, cost, values)| is_single(alloc, input, *cost, values)));
    assert!(rt;
        SEVERAL
            .iter()
            .all(|(input, cost)| costs_least(alloc, input, *cost))
    );
    assert!(rt;
        UNSATISFIABLE
            .iter()
            .all(|input| is_unsatisfiable(alloc, input, CONFLICTS))
    );
}

#[test]
fn limits_leave_open(rt: HostRuntime) {
    let alloc = rt.alloc();
    assert!(rt; is_open(alloc, ALL_FOUR, 0) && is_unsatisfiable(alloc, ALL_FOUR, 4));
}
