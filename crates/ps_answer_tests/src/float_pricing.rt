//! The entries of rows, and the parts that bounds take.

use crate::problems::problem_of;
use ps_float_pricing::Relaxed;
use std::test::*;

/// At least 1 and at most 0 are certainties; at least 0 and at most 1 always hold.
const SPLIT: &[u8] =
    b"psat 1; P(a) >= 1; P(a) <= 0; P(a) >= 0; P(a) <= 1; P(a) >= 1/3; query P(a); end;";

/// A linear sentence is a certainty where its row is that of one: b is nowhere without a. Where no
/// number counts, the bound always holds.
const LINEAR_SPLIT: &[u8] =
    b"psat 2; 0 P(a) >= 0; 1 P(a & b) - 1 P(b) >= 0; 1 P(c) = 0; 2 P(a) >= 2; P(a) + P(b) <= 1; end;";

/// Node 0 is b, node 1 is a, and node 2 is both.
const ENTRIES: &[u8] =
    b"psat 2; P(b given a) <= 1/3; P(b given a) >= 1/3; 2 P(a) - 1/3 P(b) >= 1/2; end;";

// The entry of a row where the nodes are so.
fn entry(parts: &Relaxed, row: usize, is_given: bool, is_true: bool) -> Option<i64> {
    let truth = [is_true, is_given, is_given && is_true];
    Some(parts.rows().get(row)?.entry(&truth))
}

// Of a third: a world gives two parts where the bound's formula is true, and takes one where it isn't;
// at-least bounds are turned; where the condition is false nothing counts. Of the sum, over 6: 12 where a
// is true, less 2 where b is, less 3, turned.
fn are_entries(parts: &Relaxed) -> bool {
    entry(parts, 0, true, true) == Some(2)
        && entry(parts, 0, true, false) == Some(-1)
        && entry(parts, 1, true, true) == Some(-2)
        && entry(parts, 0, false, true) == Some(0)
        && entry(parts, 2, true, true) == Some(-7)
        && entry(parts, 2, true, false) == Some(-9)
        && entry(parts, 2, false, true) == Some(5)
        && entry(parts, 2, false, false) == Some(3)
}

fn are_parts(parts: &Relaxed) -> bool {
    let certain = parts.certainties();
    let rows = parts.rows();
    certain.len() == 2
        && rows.len() == 1
        && certain
            .first()
            .is_some_and(|first| first.number == 0 && first.is_true)
        && certain
            .last()
            .is_some_and(|last| last.number == 1 && !last.is_true)
        && rows.first().is_some_and(|row| row.number == 4)
}

fn are_linear_parts(parts: &Relaxed) -> bool {
    let certain = parts.certainties();
    let rows = parts.rows();
    certain.len() == 2
        && rows.len() == 2
        && certain.first().is_some_and(|first| first.number == 1
            && first.is_true
            && first.given == Some(1))
        && certain
            .last()
            .is_some_and(|last| last.number == 2 && !last.is_true)
        && rows.first().is_some_and(|row| row.number == 3)
}

#[test]
fn bounds_are_split(rt: HostRuntime) -> Result<(), Fail> {
    let problem = problem_of(rt.alloc(), SPLIT).expect(&rt, "a problem");
    let parts = Relaxed::new(rt.alloc(), &problem, &[true; 5])?;
    assert!(rt; are_parts(&parts));
    let problem = problem_of(rt.alloc(), LINEAR_SPLIT).expect(&rt, "a problem");
    let parts = Relaxed::new(rt.alloc(), &problem, &[])?;
    assert!(rt; are_linear_parts(&parts));
    Ok(())
}

#[test]
fn rows_have_entries(rt: HostRuntime) -> Result<(), Fail> {
    let problem = problem_of(rt.alloc(), ENTRIES).expect(&rt, "a problem");
    let parts = Relaxed::new(rt.alloc(), &problem, &[])?;
    assert!(rt; are_entries(&parts));
    Ok(())
}
