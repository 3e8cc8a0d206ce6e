//! Lines at fault, and answers that are refused.
use ps_formula::World;
use ps_io::{List, NoMemory};
use ps_max_answer::{MaxAnswer, MaxError, check_max};
use ps_wcnf::{WcnfError, WcnfKind, read_wcnf};
use std::alloc::Global;
use std::test::*;

const UNREADABLE: [(&str, WcnfKind, u64); 14] = [
    ("p wcnf 1 1 2", WcnfKind::BadLine, 1),
    ("h 1025 0", WcnfKind::TooLarge, 1),
    ("\n\nh 1", WcnfKind::BadLine, 3),
    ("0 1 0", WcnfKind::BadLine, 1),
    ("h 1 00", WcnfKind::BadLine, 1),
    ("h +1 0", WcnfKind::BadLine, 1),
    ("h 1 0 0", WcnfKind::BadLine, 1),
    ("h 1 0\r", WcnfKind::BadLine, 1),
    ("h1 0\n", WcnfKind::BadLine, 1),
    ("1 -0 0\n", WcnfKind::BadLine, 1),
    ("4611686018427387905 0", WcnfKind::TooLarge, 1),
    ("1 1 1024 0\n", WcnfKind::TooLarge, 1),
    (
        "h 1024 0\n1 1 0\n1 1 -1 2 0\n1 1 2 0\n",
        WcnfKind::TooLarge,
        4,
    ),
    (
        "h 9999999999999999999999999999999999999999999 0\nx",
        WcnfKind::TooLarge,
        1,
    ),
];

// An optimum of the clauses `h 1 2 0`, `3 -1 0`, `2 -2 0` without steps, and the reason against it.
const REFUSED: [(&[bool], i128, MaxError); 5] = [
    (&[false], 2, MaxError::WrongShape),
    (&[false, true, true], 2, MaxError::WrongShape),
    (&[false, false], 0, MaxError::HardMissed { clause: 1 }),
    (&[true, true], 3, MaxError::CostWrong),
    (&[false, true], 2, MaxError::NotRefuted),
];

fn is_unreadable(alloc: Global, input: &str, kind: WcnfKind, line: u64) -> bool {
    match read_wcnf(alloc, input.as_bytes()) {
        Err(why) => why == WcnfError::At { kind, line },
        Ok(_) => false,
    }
}

fn optimum_of(alloc: Global, values: &[bool], cost: i128) -> Result<MaxAnswer, NoMemory> {
    let mut assignment = World::new(alloc);
    for value in values {
        assignment.push(*value)?;
    }
    Ok(MaxAnswer::Optimum {
        cost,
        assignment,
        steps: List::new(alloc),
    })
}

fn is_refused(alloc: Global, values: &[bool], cost: i128, reason: MaxError) -> bool {
    let Ok(text) = read_wcnf(alloc, b"h 1 2 0\n3 -1 0\n2 -2 0\n") else {
        return false;
    };
    let Ok(answer) = optimum_of(alloc, values, cost) else {
        return false;
    };
    check_max(alloc, &text, &answer) == Err(reason)
}

#[test]
fn lines_at_fault_are_named(rt: HostRuntime) {
    let alloc = rt.alloc();
    let mut lines = UNREADABLE.iter();
    assert!(rt; lines.all(|(input, kind, line)| is_unreadable(alloc, input, *kind, *line)));
}

#[test]
fn first_reasons_are_named(rt: HostRuntime) {
    let alloc = rt.alloc();
    let mut answers = REFUSED.iter();
    assert!(rt; answers.all(|(values, cost, reason)| is_refused(alloc, values, *cost, *reason)));
}
