//! Texts worked out by hand from the grammar and from the order in which nodes are numbered.
mod reading;

use self::reading::parsed;
use ps_formula::Node;
use ps_problem::{Bound, BoundAt, Linear, Problem, Side, build};
use ps_read::{ParseError, Parser};
use ps_text::{Part, ReadKind, What};
use std::alloc::Global;
use std::test::Fail;

// Texts, and the nodes of their problems.
const FORMULAS: [(&[u8], &[Node]); 13] = [
    (
        b"psat 2; 2 P(a & b) - 1/3 P(c) + P(b) >= 1/2; query P(c given a); end;",
        &[
            Node::Atom(0),
            Node::Atom(1),
            Node::And(0, 1),
            Node::Atom(2),
            Node::And(3, 0),
        ],
    ),
    (
        b"psat 1; P(a -> b -> c) = 1; end;",
        &[
            Node::Atom(0),
            Node::Atom(1),
            Node::Atom(2),
            Node::Implies(1, 2),
            Node::Implies(0, 3),
        ],
    ),
    (
        b"psat 1; P(a <-> b <-> c) = 1; end;",
        &[
            Node::Atom(0),
            Node::Atom(1),
            Node::Iff(0, 1),
            Node::Atom(2),
            Node::Iff(2, 3),
        ],
    ),
    (
        b"psat 1; P(!a & b) = 1; end;",
        &[Node::Atom(0), Node::Not(0), Node::Atom(1), Node::And(1, 2)],
    ),
    (
        b"psat 1; P(!!(a & b)) = 1; end;",
        &[
            Node::Atom(0),
            Node::Atom(1),
            Node::And(0, 1),
            Node::Not(2),
            Node::Not(3),
        ],
    ),
    (
        b"psat 1; P(a | b & c) = 1; end;",
        &[
            Node::Atom(0),
            Node::Atom(1),
            Node::Atom(2),
            Node::And(1, 2),
            Node::Or(0, 3),
        ],
    ),
    (
        b"psat 1; P(a & (b | c)) = 1; end;",
        &[
            Node::Atom(0),
            Node::Atom(1),
            Node::Atom(2),
            Node::Or(1, 2),
            Node::And(0, 3),
        ],
    ),
    (
        b"psat 1; P(a & b & a) = 1; end;",
        &[
            Node::Atom(0),
            Node::Atom(1),
            Node::And(0, 1),
            Node::And(2, 0),
        ],
    ),
    (
        b"psat 1; P(a | b -> c <-> true) = 1; end;",
        &[
            Node::Atom(0),
            Node::Atom(1),
            Node::Or(0, 1),
            Node::Atom(2),
            Node::Implies(2, 3),
            Node::True,
            Node::Iff(4, 5),
        ],
    ),
    (
        b"psat 1; P(!(a -> b) | !c & a) = 1; end;",
        &[
            Node::Atom(0),
            Node::Atom(1),
            Node::Implies(0, 1),
            Node::Not(2),
            Node::Atom(2),
            Node::Not(4),
            Node::And(5, 0),
            Node::Or(3, 6),
        ],
    ),
    (
        b"psat 1; P(false | x1 given !x1) = 1; end;",
        &[
            Node::False,
            Node::Atom(0),
            Node::Or(0, 1),
            Node::Not(1),
            Node::And(2, 3),
        ],
    ),
    (
        b"psat 1; query P(b); P(a) = 1; end;",
        &[Node::Atom(0), Node::Atom(1)],
    ),
    (b"psat 1; end;", &[]),
];

// Texts, and the side and value of the bound of this number, from 1 on.
const VALUES: [(&[u8], u32, (Side, u32, u32)); 9] = [
    (b"psat 1; P(a) = 0.50; end;", 1, (Side::Exactly, 1, 2)),
    (b"psat 1; P(a) >= 6/8; end;", 1, (Side::AtLeast, 3, 4)),
    (b"psat 1; P(a) <= 007/10; end;", 1, (Side::AtMost, 7, 10)),
    (b"psat 1; P(a) <= 1.000000; end;", 1, (Side::AtMost, 1, 1)),
    (b"psat 1; P(a) = 0/7; end;", 1, (Side::Exactly, 0, 1)),
    (
        b"psat 1; P(a) = 0.000004; end;",
        1,
        (Side::Exactly, 1, 250_000),
    ),
    (
        b"psat 1; P(a) in [0.25, 2/3]; end;",
        1,
        (Side::AtLeast, 1, 4),
    ),
    (
        b"psat 1; P(a) in [0.25, 2/3]; end;",
        2,
        (Side::AtMost, 2, 3),
    ),
    (
        b"psat 1; P(a) = 1; query P(a); P(b) = 0.1; end;",
        2,
        (Side::Exactly, 1, 10),
    ),
];

// Texts, and the formula, the condition and both together of the bound of this number.
const CONDITIONS: [(&[u8], u32, (u32, Option<u32>, u32)); 4] = [
    (b"psat 1; P(a given b) >= 1; end;", 1, (0, Some(1), 2)),
    (b"psat 1; P(a given !b) = 1; end;", 1, (0, Some(2), 3)),
    (b"psat 1; P(a given b) = 1; P(b) = 1; end;", 2, (1, None, 1)),
    (
        b"psat 1; query P(c given a); P(a) = 1; P(b given a) = 1; end;",
        2,
        (1, Some(0), 2),
    ),
];

// A linear sentence's scale, terms, side, right side and upper right side.
type Numbers = (u32, &'static [(u32, i64)], Side, i64, Option<i64>);

// Texts of one linear sentence, and its numbers.
const SUMS: [(&[u8], Numbers); 7] = [
    (
        b"psat 2; 2 P(a) - 1/3 P(b) >= 1/2; end;",
        (6, &[(0, 12), (1, -2)], Side::AtLeast, 3, None),
    ),
    (
        b"psat 2; P(a)-P(b) in [-1/4, 0.5]; end;",
        (4, &[(0, 4), (1, -4)], Side::AtLeast, -1, Some(2)),
    ),
    (
        b"psat 2; -P(a)+2P(b)<=-0.5; end;",
        (2, &[(0, -2), (1, 4)], Side::AtMost, -1, None),
    ),
    (
        b"psat 2; 1 P(a) = 1/2; end;",
        (2, &[(0, 2)], Side::Exactly, 1, None),
    ),
    (
        b"psat 2; 6/8 P(a) + P(a) >= 2/2; end;",
        (4, &[(0, 3), (0, 4)], Side::AtLeast, 4, None),
    ),
    (
        b"psat 2; 1/2 P(a) + 0.5 P(!a) = 1; end;",
        (2, &[(0, 1), (1, 1)], Side::Exactly, 2, None),
    ),
    (
        b"psat 2; 0 P(a) >= -0; end;",
        (1, &[(0, 0)], Side::AtLeast, 0, None),
    ),
];

// Texts, and where their items' first tokens stand.
const PLACES: [(&[u8], &[(u32, u32)]); 3] = [
    (b"psat 1; end;", &[]),
    (
        b"psat 1;\n\tP(a) = 1; query P(b);\r\n  P(P1) in [0, 1]; end;",
        &[(2, 2), (2, 12), (3, 3)],
    ),
    (b"psat 1; # P(a) = 1;\nquery P(a", &[(2, 1)]),
];

const REFUSED: [(&[u8], ReadKind); 6] = [
    (b"psat 3;", ReadKind::VersionUnknown),
    (
        b"psat 2; P(a) + P(b given c)",
        ReadKind::Expected(What::Operator),
    ),
    (b"psat 1; P(a = 1;", ReadKind::Expected(What::Operator)),
    (
        b"psat 1; P(a given b given c)",
        ReadKind::Expected(What::Operator),
    ),
    (b"psat 1; P(a) = 3/0;", ReadKind::ZeroDenominator),
    (
        b"psat 1; query P(a) = 1;",
        ReadKind::Expected(What::Semicolon),
    ),
];

// The problem behind all tokens of a text.
fn built(alloc: Global, parser: &Parser) -> Option<Problem> {
    if parser.part() != Part::Done {
        return None;
    }
    build(alloc, parser.draft()).ok()
}

// The problem of a whole text.
fn problem(alloc: Global, text: &[u8]) -> Result<Problem, Fail> {
    let parser = parsed(alloc, text).ok().ok_or("a text")?;
    Ok(built(alloc, &parser).ok_or("a problem")?)
}

fn are_formulas_parsed(alloc: Global) -> Result<bool, Fail> {
    for (text, nodes) in FORMULAS {
        if problem(alloc, text)?.formulas().nodes() != nodes {
            return Ok(false);
        }
    }
    Ok(true)
}

// The plain bound of this number in a text.
fn bound(alloc: Global, text: &[u8], number: u32) -> Result<Bound, Fail> {
    match problem(alloc, text)?.bound(number) {
        Some(BoundAt::Plain(bound)) => Ok(*bound),
        _ => Err("a plain bound".into()),
    }
}

// Whether a linear sentence has these numbers.
fn has_numbers(linear: &Linear, numbers: Numbers) -> bool {
    let (scale, terms, side, right, upper) = numbers;
    linear.scale == scale
        && linear.terms.as_slice() == terms
        && linear.side == side
        && linear.right == right
        && linear.upper == upper
}

fn are_sums_parsed(alloc: Global) -> Result<bool, Fail> {
    for (text, numbers) in SUMS {
        match problem(alloc, text)?.bound(1) {
            Some(BoundAt::Linear { of, upper: false }) if has_numbers(of, numbers) => {}
            _ => return Ok(false),
        }
    }
    Ok(true)
}

fn are_values_parsed(alloc: Global) -> Result<bool, Fail> {
    for (text, number, value) in VALUES {
        let bound = bound(alloc, text, number)?;
        if (bound.side, bound.num, bound.den) != value {
            return Ok(false);
        }
    }
    Ok(true)
}

fn are_conditions_parsed(alloc: Global) -> Result<bool, Fail> {
    for (text, number, formulas) in CONDITIONS {
        let bound = bound(alloc, text, number)?;
        if (bound.formula, bound.given, bound.both) != formulas {
            return Ok(false);
        }
    }
    Ok(true)
}

fn stand_at(parser: &Parser, places: &[(u32, u32)]) -> bool {
    let found = parser.places();
    found.len() == places.len()
        && found
            .iter()
            .zip(places)
            .all(|(one, place)| (one.line, one.column) == *place)
}

fn are_places_kept(alloc: Global) -> Result<bool, Fail> {
    for (text, places) in PLACES {
        if !stand_at(&parsed(alloc, text).ok().ok_or("a text")?, places) {
            return Ok(false);
        }
    }
    Ok(true)
}

fn are_refused(alloc: Global) -> bool {
    for (text, kind) in REFUSED {
        if parsed(alloc, text).err() != Some(ParseError::Refused(kind)) {
            return false;
        }
    }
    true
}

#[test]
fn formulas_are_parsed(rt: HostRuntime) -> Result<(), Fail> {
    assert!(rt; are_formulas_parsed(rt.alloc())?);
    Ok(())
}

#[test]
fn bounds_are_parsed(rt: HostRuntime) -> Result<(), Fail> {
    assert!(rt; are_values_parsed(rt.alloc())? && are_conditions_parsed(rt.alloc())?);
    Ok(())
}

#[test]
fn linear_sentences_are_parsed(rt: HostRuntime) -> Result<(), Fail> {
    assert!(rt; are_sums_parsed(rt.alloc())?);
    Ok(())
}

#[test]
fn places_are_kept(rt: HostRuntime) -> Result<(), Fail> {
    assert!(rt; are_places_kept(rt.alloc())?);
    Ok(())
}

#[test]
fn tokens_are_refused(rt: HostRuntime) -> Result<(), Fail> {
    assert!(rt; are_refused(rt.alloc()));
    Ok(())
}
