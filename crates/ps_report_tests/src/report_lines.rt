use ps_answer::{LineKind, Part};
use ps_reader::{LineError, read_line};
use std::alloc::Global;

const FIRST: Part = Part::AQuery { number: 1 };

const SECOND: Part = Part::AQuery { number: 2 };

const LAST: Part = Part::AQuery { number: 17 };

const LOWER: Part = Part::ASide { upper: false };

const UPPER: Part = Part::ASide { upper: true };

// Lines that are read, up to and with their line feed.
const READ: [(Part, &[u8]); 38] = [
    (Part::AReport, b"report 1\n"),
    (Part::AVerdict, b"consistent\n"),
    (Part::AVerdict, b"inconsistent\n"),
    (Part::AVerdict, b"open pivots 0\n"),
    (Part::ACause, b"open pivots 1000000\n"),
    (Part::AnAnswer, b"open conflicts 1099511627776\n"),
    (Part::AModel, b"model 10 3\n"),
    (Part::AModel, b"model 1237940039285380274899124224 101\n"),
    (Part::AnEntry, b"w 6 11\n"),
    (Part::AnEntry, b"w 1 -\n"),
    (Part::AnEntry, b"w 0 0\n"),
    (Part::ADual, b"dual 10 -6 1\n"),
    (Part::ADual, b"dual 0 0 2199023255552\n"),
    (Part::SomeRows, b"y\n"),
    (Part::SomeRows, b"y 0 -1\n"),
    (Part::SomeRows, b"y -1237940039285380274899124224\n"),
    (Part::AStep, b"s 5 0 4 3 0\n"),
    (Part::AStep, b"s 7 -1024 3 0 1 0\n"),
    (Part::AGoal, b"g -3 1 2 10 -5 0\n"),
    (Part::ATrace, b"t 2000001\n"),
    (Part::AnEvent, b"p w1 0\n"),
    (Part::AnEvent, b"p h100 100\n"),
    (Part::AnEvent, b"p w1000001 0\n"),
    (Part::AnEvent, b"c -\n"),
    (Part::AnEvent, b"c 0110\n"),
    (Part::AnAnswer, b"bounds\n"),
    (Part::AnAnswer, b"impossible\n"),
    (LOWER, b"lower\n"),
    (LOWER, b"lower 3/5\n"),
    (LOWER, b"lower 0/1\n"),
    (UPPER, b"upper 1/1\n"),
    (UPPER, b"upper\nw"),
    (FIRST, b"query 1\n"),
    (FIRST, b"end\n"),
    (SECOND, b"query 2\n"),
    (Part::ACause, b"open wide times 3 w5 mul -1/2 3/4\n"),
    (
        Part::ACause,
        b"open wide minus 0 h100 sub 170141183460469231731687303715884105727/1 0/1\n",
    ),
    (Part::AVerdict, b"open wide scale r div 1/3 1/2\n"),
];

// Lines at fault, and how.
const REFUSED: [(Part, &[u8], LineKind); 66] = [
    (Part::AReport, b"report 1", LineKind::Truncated),
    (Part::AReport, b"", LineKind::Truncated),
    (Part::AReport, b"\n", LineKind::BadLine),
    (Part::AReport, b" report 1\n", LineKind::BadLine),
    (Part::AReport, b"reports 1\n", LineKind::BadLine),
    (Part::AReport, b"report 2\n", LineKind::NotCanonical),
    (Part::AReport, b"report 01\n", LineKind::NotCanonical),
    (Part::AReport, b"report\n", LineKind::NotCanonical),
    (Part::AReport, b"report 1 \n", LineKind::NotCanonical),
    (Part::AVerdict, b"model 1 1\n", LineKind::BadLine),
    (Part::AVerdict, b"consistent \n", LineKind::NotCanonical),
    (Part::AVerdict, b"open\n", LineKind::NotCanonical),
    (Part::AVerdict, b"open nothing 1\n", LineKind::NotCanonical),
    (Part::AVerdict, b"open pivots\n", LineKind::NotCanonical),
    (Part::AVerdict, b"open pivots 1000001\n", LineKind::TooLarge),
    (
        Part::ACause,
        b"open conflicts 1099511627777\n",
        LineKind::TooLarge,
    ),
    (Part::ACause, b"open conflicts -1\n", LineKind::NotCanonical),
    (Part::AModel, b"model  10 3\n", LineKind::NotCanonical),
    (Part::AModel, b"model 10 3 \n", LineKind::NotCanonical),
    (Part::AModel, b"model 010 3\n", LineKind::NotCanonical),
    (Part::AModel, b"model 10\n", LineKind::NotCanonical),
    (Part::AModel, b"model -10 3\n", LineKind::NotCanonical),
    (Part::AModel, b"model 10 102\n", LineKind::TooLarge),
    (
        Part::AModel,
        b"model 1237940039285380274899124225 3\n",
        LineKind::TooLarge,
    ),
    (
        Part::AModel,
        b"model 99999999999999999999999999999999999999999999999999 3\n",
        LineKind::TooLarge,
    ),
    (
        Part::AModel,
        b"model 99999999999999999999999999999999999999999999999999 x\n",
        LineKind::NotCanonical,
    ),
    (Part::AnEntry, b"w 06 11\n", LineKind::NotCanonical),
    (Part::AnEntry, b"w 6\n", LineKind::NotCanonical),
    (Part::AnEntry, b"w 6 12\n", LineKind::NotCanonical),
    (Part::AnEntry, b"w 6 \n", LineKind::NotCanonical),
    (Part::ADual, b"dual -1 0 1\n", LineKind::NotCanonical),
    (Part::ADual, b"dual 1 -0 1\n", LineKind::NotCanonical),
    (Part::ADual, b"dual 1 0 2199023255553\n", LineKind::TooLarge),
    (
        Part::ADual,
        b"dual 1 -1237940039285380274899124225 0\n",
        LineKind::TooLarge,
    ),
    (Part::SomeRows, b"y \n", LineKind::NotCanonical),
    (
        Part::SomeRows,
        b"y 1 1237940039285380274899124225\n",
        LineKind::TooLarge,
    ),
    (
        Part::SomeRows,
        b"y 1237940039285380274899124225 x\n",
        LineKind::NotCanonical,
    ),
    (Part::AStep, b"s 5 0 4 3\n", LineKind::NotCanonical),
    (Part::AStep, b"s 5 a 0\n", LineKind::NotCanonical),
    (Part::AStep, b"s 0 0 1 0\n", LineKind::TooLarge),
    (Part::AStep, b"g 1 0\n", LineKind::BadLine),
    (Part::AGoal, b"g 1 0 1 0\n", LineKind::NotCanonical),
    (Part::AGoal, b"g 1 1 1025 0\n", LineKind::TooLarge),
    (Part::ATrace, b"t 2000002\n", LineKind::TooLarge),
    (Part::AnEvent, b"p w0 0\n", LineKind::TooLarge),
    (Part::AnEvent, b"p w1000002 0\n", LineKind::TooLarge),
    (Part::AnEvent, b"p h101 0\n", LineKind::TooLarge),
    (Part::AnEvent, b"p r 0\n", LineKind::NotCanonical),
    (Part::AnEvent, b"p h01 0\n", LineKind::NotCanonical),
    (Part::AnEvent, b"p h1 101\n", LineKind::TooLarge),
    (Part::AnEvent, b"c\n", LineKind::NotCanonical),
    (LOWER, b"upper\n", LineKind::BadLine),
    (LOWER, b"lower 2/4\n", LineKind::NotCanonical),
    (LOWER, b"lower 1/0\n", LineKind::NotCanonical),
    (LOWER, b"lower -1/2\n", LineKind::NotCanonical),
    (LOWER, b"lower 1\n", LineKind::NotCanonical),
    (LOWER, b"lower \n", LineKind::NotCanonical),
    (
        UPPER,
        b"upper 1237940039285380274899124226/2\n",
        LineKind::TooLarge,
    ),
    (
        UPPER,
        b"upper 1237940039285380274899124225/0\n",
        LineKind::NotCanonical,
    ),
    (FIRST, b"query 2\n", LineKind::NotCanonical),
    (
        FIRST,
        b"query 99999999999999999999999\n",
        LineKind::NotCanonical,
    ),
    (LAST, b"query 17\n", LineKind::TooLarge),
    (
        Part::ACause,
        b"open wide times 3 add 1/2 3/4\n",
        LineKind::NotCanonical,
    ),
    (
        Part::ACause,
        b"open wide ratio 101 div 1/2 3/4\n",
        LineKind::TooLarge,
    ),
    (
        Part::ACause,
        b"open wide ratio 1 div 170141183460469231731687303715884105728/2 3/4\n",
        LineKind::TooLarge,
    ),
    (
        Part::ACause,
        b"open wide other 1 div 1/2 3/4\n",
        LineKind::NotCanonical,
    ),
];

fn are_read(alloc: Global) -> bool {
    for (part, line) in &READ {
        if read_line(alloc, *part, line).is_err() {
            return false;
        }
    }
    true
}

fn are_refused(alloc: Global) -> bool {
    for (part, line, kind) in &REFUSED {
        match read_line(alloc, *part, line) {
            Err(LineError::Fault(found)) if found == *kind => {}
            _ => return false,
        }
    }
    true
}

#[test]
fn lines_are_read(rt: HostRuntime) {
    assert!(rt; are_read(rt.alloc()));
}

#[test]
fn lines_at_fault_are_refused(rt: HostRuntime) {
    assert!(rt; are_refused(rt.alloc()));
}
