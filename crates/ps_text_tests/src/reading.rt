//! Texts worked out by hand from the grammar, the tables of refusals and the limits.
use ps_read::{ReadError, ReadKind, What, read_problem, read_whole};
use std::alloc::Global;
use std::test::Fail;

// The number of bounds and the place behind the text, or the first refusal with its place.
fn read(alloc: Global, text: &[u8]) -> Result<Result<(u32, u64), (ReadKind, u32, u32)>, Fail> {
    if text.len() > 100_000 {
        Err("a short text")?;
    }
    match read_problem(alloc, text) {
        Ok((problem, place)) => Ok(Ok((problem.bounds(), place))),
        Err(ReadError::At { kind, line, column }) => Ok(Err((kind, line, column))),
        Err(ReadError::NoMemory) => Err("memory")?,
    }
}

// The same where all bytes are to spell the problem.
fn read_all(alloc: Global, text: &[u8]) -> Result<Result<u32, (ReadKind, u32, u32)>, Fail> {
    if text.len() > 100_000 {
        Err("a short text")?;
    }
    match read_whole(alloc, text) {
        Ok(problem) => Ok(Ok(problem.bounds())),
        Err(ReadError::At { kind, line, column }) => Ok(Err((kind, line, column))),
        Err(ReadError::NoMemory) => Err("memory")?,
    }
}

// Texts, how many bounds they state, and where they and the blanks behind them end.
const READ: [(&[u8], u32, u64); 13] = [
    (b"psat 1;end;", 0, 11),
    (b"psat 1;\nend;\n", 0, 13),
    (b"psat 1; end; # the end", 0, 22),
    (b"psat 1; end; \t\r\nreport 1", 0, 16),
    (b"psat 1; end;report 1", 0, 12),
    (b"psat 1; end;@", 0, 12),
    (
        b"psat 1; P(a -> b given !c) in [1/4, 0.75]; query P(a); end; # x\n;",
        2,
        64,
    ),
    (
        b"psat 1; P(a) = 7/10; P(a -> b) = 9/10; query P(b); end;",
        2,
        55,
    ),
    (b"psat 1; P((a)&b->c->!(a|b))=0.50; end;", 1, 38),
    (
        b"psat 1; P(aaaaaaaaaaaaaaaaaaaaaaaaaaaaaaaa) = 1; end;",
        1,
        53,
    ),
    (b"psat 2; 1000000 P(a) + 1000000 P(b) >= 0; end;", 1, 46),
    (b"psat 2; P(a)-P(b) in [-1/2, 0.5]; end;\n", 2, 39),
    (b"psat 2; 1000000 P(a) + 999999 P(b) in [0, 1]; end;", 2, 50),
];

const REFUSED: [(&[u8], ReadKind, u32, u32); 33] = [
    (b"", ReadKind::EndMissing, 1, 1),
    (b"psat 1;\n", ReadKind::EndMissing, 2, 1),
    (b"psat 1; end # ;", ReadKind::EndMissing, 1, 16),
    (b"psat 3;", ReadKind::VersionUnknown, 1, 6),
    (b"psat 01;", ReadKind::VersionUnknown, 1, 6),
    (b"\n psot", ReadKind::Expected(What::Psat), 2, 2),
    (b"psat 1;\nP(a) = 3/;", ReadKind::NumberOutOfRange, 2, 8),
    (b"psat 1;\nP(a) = 1/;", ReadKind::BadByte, 2, 9),
    (b"psat 1;\nP(a <- b)", ReadKind::BadByte, 2, 5),
    (b"psat 1;\nP(a) - 1", ReadKind::BadByte, 2, 6),
    (
        b"psat 1;\nP(a given b given c)",
        ReadKind::Expected(What::Operator),
        2,
        13,
    ),
    (
        b"psat 1;\nP((a given b))",
        ReadKind::Expected(What::Operator),
        2,
        6,
    ),
    (
        b"psat 1; # P(\nP(in)",
        ReadKind::Expected(What::Formula),
        2,
        3,
    ),
    (
        b"psat 1; aaaaaaaaaaaaaaaaaaaaaaaaaaaaaaaaa",
        ReadKind::NameTooLong,
        1,
        9,
    ),
    (
        b"psat 1;\nP(a) = 3/2;\nend;",
        ReadKind::NumberOutOfRange,
        2,
        8,
    ),
    (
        b"psat 1;\nP(a) = 0.1234567;\nend;",
        ReadKind::TooManyDecimals,
        2,
        8,
    ),
    (
        b"psat 1;\nP(a) = 1/0;\nend;",
        ReadKind::ZeroDenominator,
        2,
        8,
    ),
    (
        b"psat 1;\nP(a) = 1/1000001;\nend;",
        ReadKind::DenominatorTooLarge,
        2,
        8,
    ),
    (b"psat 1;\nP(a) > 1/2;\nend;", ReadKind::BadByte, 2, 6),
    (
        b"psat 1;\nP(a &) = 1/2;\nend;",
        ReadKind::Expected(What::Formula),
        2,
        6,
    ),
    (
        b"psat 1;\nP(a) = 7/10;\nP(a -> b) = 9/10;\nquery P(b);\n",
        ReadKind::EndMissing,
        5,
        1,
    ),
    (
        b"psat 1;\nP(aaaaaaaaaaaaaaaaaaaaaaaaaaaaaaaaa) = 1;\nend;",
        ReadKind::NameTooLong,
        2,
        3,
    ),
    // A tab is one column, and neither a tab nor a carriage return ends a line.
    (b"psat 1;\n\tP(a) = 3/2;", ReadKind::NumberOutOfRange, 2, 9),
    (b"psat 1;\r\nP(a) = 3/2;", ReadKind::NumberOutOfRange, 2, 8),
    (b"psat 1;\rP(a) = 3/2;", ReadKind::NumberOutOfRange, 1, 16),
    (
        b"psat 2;\n1000000 P(a) + 1000000 P(b) >= 1;\nend;",
        ReadKind::LinearTooLarge,
        2,
        1,
    ),
    (
        b"psat 2;\n1/1000000 P(a) + 1/999999 P(b) >= 0;\nend;",
        ReadKind::LinearTooLarge,
        2,
        1,
    ),
    // Of an interval one bound too large is enough.
    (
        b"psat 2;\nP(a) = 1; 1000000 P(a) + 999999 P(b) in [0, 2];\nend;",
        ReadKind::LinearTooLarge,
        2,
        11,
    ),
    (
        b"psat 2;\n1/2 P(a) >= 1/500001;\nend;",
        ReadKind::LinearTooLarge,
        2,
        1,
    ),
    (
        b"psat 2;\nP(a) - 1 >= 0;",
        ReadKind::Expected(What::Prob),
        2,
        10,
    ),
    (
        b"psat 2;\nP(a) - P(b given c) >= 0;",
        ReadKind::Expected(What::Operator),
        2,
        12,
    ),
    (b"psat 1;\nP(a) + P(b) <= 1;", ReadKind::BadByte, 2, 6),
    // A comment ends before its line feed.
    (
        b"psat 1; # x\nP(a) = 3/2;",
        ReadKind::NumberOutOfRange,
        2,
        8,
    ),
];

const MORE: [(&[u8], u32, u32); 3] = [
    (
        b"psat 1;\nP(a) = 7/10;\nP(a -> b) = 9/10;\nquery P(b);\nend;\nx",
        6,
        1,
    ),
    (b"psat 1; end; \t# x\n\r;", 2, 2),
    (b"psat 1; end;@", 1, 13),
];

// A formula of 128 atoms.
const ATOMS: &[u8] =
    b"a|b|c|d|e|f|g|h|i|j|k|l|m|n|o|p|q|r|s|t|u|v|w|x|y|z|a0|b0|c0|d0|e0|f0|g0|h0|i0|j0|k0|l0|\
    m0|n0|o0|p0|q0|r0|s0|t0|u0|v0|w0|x0|y0|z0|a1|b1|c1|d1|e1|f1|g1|h1|i1|j1|k1|l1|m1|n1|o1|\
    p1|q1|r1|s1|t1|u1|v1|w1|x1|y1|z1|a2|b2|c2|d2|e2|f2|g2|h2|i2|j2|k2|l2|m2|n2|o2|p2|q2|r2|\
    s2|t2|u2|v2|w2|x2|y2|z2|a3|b3|c3|d3|e3|f3|g3|h3|i3|j3|k3|l3|m3|n3|o3|p3|q3|r3|s3|t3|u3|\
    v3|w3|x3";

// Pieces, each with how often it stands, and what is read of them between `psat 2;` and `end;`.
const COUNTED: [(&[(&[u8], u32)], Result<u32, (ReadKind, u32, u32)>); 17] = [
    (&[(b"P(a) >= 0;\n", 100)], Ok(100)),
    (
        &[(b"P(a) >= 0;\n", 101)],
        Err((ReadKind::TooManyBounds, 102, 1)),
    ),
    (&[(b"P(a) in [0, 1];\n", 50)], Ok(100)),
    (
        &[(b"P(a) >= 0;\n", 99), (b"\tP(a) in [0, 1];\n", 1)],
        Err((ReadKind::TooManyBounds, 101, 2)),
    ),
    (&[(b"query P(a);\n", 16)], Ok(0)),
    (
        &[(b"query P(a);\n", 17)],
        Err((ReadKind::TooManyQueries, 18, 1)),
    ),
    // All sentences are counted before the queries.
    (
        &[(b"query P(a);\n", 17), (b"P(a) >= 0;\n", 101)],
        Err((ReadKind::TooManyBounds, 119, 1)),
    ),
    // The form is refused before any count.
    (
        &[(b"query P(a);\n", 17), (b"P(a >= 0;\n", 1)],
        Err((ReadKind::Expected(What::Operator), 19, 5)),
    ),
    (&[(b"P(", 1), (ATOMS, 1), (b") >= 0;\n", 1)], Ok(1)),
    (
        &[(b"P(", 1), (ATOMS, 1), (b"|z3) >= 0;\n", 1)],
        Err((ReadKind::TooManyAtoms, 2, 1)),
    ),
    // A linear sentence has one bound, and as an interval two.
    (&[(b"P(a) + P(b) in [0, 1];\n", 50)], Ok(100)),
    (
        &[(b"2 P(a) >= 0;\n", 100), (b"P(a) - P(b) >= 0;\n", 1)],
        Err((ReadKind::TooManyBounds, 102, 1)),
    ),
    // Its numbers are tried before the counts of bounds, atoms and nodes.
    (
        &[
            (b"P(a) >= 0;\n", 100),
            (b"1000000 P(a) >= 1000001/1000000;\n", 1),
        ],
        Err((ReadKind::LinearTooLarge, 102, 1)),
    ),
    (
        &[
            (b"2000000/2 P(", 1),
            (ATOMS, 1),
            (b"|z3) + 1 P(a) >= 1/3;\n", 1),
        ],
        Err((ReadKind::LinearTooLarge, 2, 1)),
    ),
    (
        &[(b"2000000/2 P(a", 1), (b"|a", 1024), (b") >= 1/3;\n", 1)],
        Err((ReadKind::LinearTooLarge, 2, 1)),
    ),
    (&[(b"P(a", 1), (b"|a", 1023), (b") >= 0;\n", 1)], Ok(1)),
    (
        &[(b"P(a", 1), (b"|a", 1024), (b") >= 0;\n", 1)],
        Err((ReadKind::TooManyNodes, 2, 1)),
    ),
];

fn all_are_read(alloc: Global) -> Result<bool, Fail> {
    for (text, bounds, place) in READ {
        if read(alloc, text)? != Ok((bounds, place)) {
            return Ok(false);
        }
    }
    Ok(true)
}

fn all_are_refused(alloc: Global) -> Result<bool, Fail> {
    for (text, kind, line, column) in REFUSED {
        if read(alloc, text)? != Err((kind, line, column)) {
            return Ok(false);
        }
        if read_all(alloc, text)? != Err((kind, line, column)) {
            return Ok(false);
        }
    }
    Ok(true)
}

fn more_is_refused(alloc: Global) -> Result<bool, Fail> {
    for (text, line, column) in MORE {
        if read_all(alloc, text)? != Err((ReadKind::MoreAfterEnd, line, column)) {
            return Ok(false);
        }
    }
    Ok(true)
}

// A text of these pieces.
fn text_of(alloc: Global, pieces: &[(&[u8], u32)]) -> Result<Vec<u8>, Fail> {
    let mut text = Vec::new(alloc);
    text.extend_from_slice(b"psat 2;\n")?;
    for (piece, count) in pieces {
        for _ in 0..*count {
            text.extend_from_slice(piece)?;
        }
    }
    text.extend_from_slice(b"end;\n")?;
    Ok(text)
}

fn counts_are_refused(alloc: Global) -> Result<bool, Fail> {
    for (pieces, expected) in COUNTED {
        let text = text_of(alloc, pieces)?;
        if read_all(alloc, text.as_slice())? != expected {
            return Ok(false);
        }
    }
    Ok(true)
}

#[test]
fn problems_are_read(rt: HostRuntime) -> Result<(), Fail> {
    assert!(rt; all_are_read(rt.alloc())?);
    Ok(())
}

#[test]
fn forms_are_refused(rt: HostRuntime) -> Result<(), Fail> {
    assert!(rt; all_are_refused(rt.alloc())?);
    Ok(())
}

#[test]
fn what_follows_is_refused(rt: HostRuntime) -> Result<(), Fail> {
    assert!(rt; more_is_refused(rt.alloc())?);
    Ok(())
}

#[test]
fn counts_are_refused_at_their_items(rt: HostRuntime) -> Result<(), Fail> {
    assert!(rt; counts_are_refused(rt.alloc())?);
    Ok(())
}
