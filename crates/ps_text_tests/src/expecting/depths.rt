//! Nestings, up to the 100th and past it.

use super::reading::{Answer, read};
use ps_text::{Part, ReadKind};
use std::alloc::Global;
use std::test::Fail;

const DEEP: Answer = Answer::Refused(ReadKind::TooDeep);

const OPERAND: Answer = Answer::Next(Part::Operand);

const OPERATOR: Answer = Answer::Next(Part::Operator);

// A piece that is repeated, how often, what follows it, and how the reading ends; what is ended is
// no nesting.
const NESTED: [(&[u8], usize, &[u8], Answer); 17] = [
    (b"!", 100, b"", OPERAND),
    (b"!", 101, b"", DEEP),
    (b"(", 100, b"a", OPERATOR),
    (b"(", 101, b"", DEEP),
    (b"a -> ", 100, b"", OPERAND),
    (b"a -> ", 101, b"", DEEP),
    (b"!(", 50, b"", OPERAND),
    (b"!(", 50, b"!", DEEP),
    (b"a -> (", 50, b"b ->", DEEP),
    (b"a -> ", 100, b"b & !", DEEP),
    (b"!a & ", 101, b"!", OPERAND),
    (b"!!(a) | ", 101, b"(", OPERAND),
    (b"(a -> !b) & ", 101, b"(", OPERAND),
    (b"a -> b <-> ", 101, b"a ->", OPERAND),
    (b"!", 100, b"a & !", OPERAND),
    (b"a -> ", 100, b"b given !", OPERAND),
    (b"a -> ", 100, b"b <-> !", OPERAND),
];

fn text(alloc: Global, piece: &[u8], times: usize, behind: &[u8]) -> Result<Vec<u8>, Fail> {
    let mut text = Vec::new(alloc);
    text.extend_from_slice(b"psat 1; P(")?;
    for _ in 0..times {
        text.extend_from_slice(piece)?;
    }
    text.extend_from_slice(behind)?;
    Ok(text)
}

fn all_nest(alloc: Global) -> Result<bool, Fail> {
    for (piece, times, behind, answer) in NESTED {
        let text = text(alloc, piece, times, behind)?;
        if read(alloc, text.as_slice())? != answer {
            return Ok(false);
        }
    }
    Ok(true)
}

#[test]
fn the_nesting_past_the_hundredth_is_refused(rt: HostRuntime) -> Result<(), Fail> {
    assert!(rt; all_nest(rt.alloc())?);
    Ok(())
}
