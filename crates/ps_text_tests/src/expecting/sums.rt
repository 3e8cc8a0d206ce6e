//! Linear sentences, worked out by hand from the tables of refusals and of what is expected.

use super::reading::{Answer, read};
use ps_text::{Part, ReadKind, What};
use std::alloc::Global;
use std::test::Fail;

const NEXT: [(&[u8], Part); 25] = [
    (b"psat 2", Part::HeadEnd),
    (b"psat 2;", Part::Item),
    (b"psat 2; -", Part::Term),
    (b"psat 2; 2", Part::TermProb),
    (b"psat 2; - 1/2", Part::TermProb),
    (b"psat 2; 2 P", Part::Paren),
    (b"psat 2; -P(", Part::Operand),
    (b"psat 2; 2 P(a & b", Part::Operator),
    (b"psat 2; P(a)", Part::Relation),
    (b"psat 2; 2 P(a)", Part::Relation),
    (b"psat 2; P(a) +", Part::Term),
    (b"psat 2; P(a)-", Part::Term),
    (b"psat 2; 2 P(a) - 1/3 P(b)", Part::Relation),
    (b"psat 2; P(a) - P(b) >=", Part::Number),
    (b"psat 2; P(a) - P(b) >= -", Part::Number),
    (b"psat 2; P(a) - P(b) >= - 1/2", Part::ItemEnd),
    (b"psat 2; P(a) + P(b) in", Part::Bracket),
    (b"psat 2; P(a) + P(b) in [", Part::First),
    (b"psat 2; P(a) + P(b) in [-", Part::First),
    (b"psat 2; P(a) + P(b) in [-1", Part::Comma),
    (b"psat 2; P(a) + P(b) in [-1, -", Part::Second),
    (b"psat 2; P(a) + P(b) in [-1, 1000000", Part::BracketEnd),
    (b"psat 2; 1000000 P(a) = 1500000/2;", Part::Item),
    (b"psat 2; P(a given b) = 1; query P(a given b);", Part::Item),
    (b"psat 2;2P(a)-1/3P(b)>=-0.5;-P(c)in[-1,0];end;", Part::Done),
];

const REFUSED: [(&[u8], ReadKind); 40] = [
    (b"psat 2;;", ReadKind::Expected(What::Item2)),
    (b"psat 2; +", ReadKind::Expected(What::Item2)),
    (b"psat 2; a", ReadKind::Expected(What::Item2)),
    (b"psat 2; - -", ReadKind::Expected(What::Term)),
    (b"psat 2; - query", ReadKind::Expected(What::Term)),
    (b"psat 2; P(a) + (", ReadKind::Expected(What::Term)),
    (b"psat 2; P(a) - end", ReadKind::Expected(What::Term)),
    (b"psat 2; 2 2", ReadKind::Expected(What::Prob)),
    (b"psat 2; 2 (", ReadKind::Expected(What::Prob)),
    (b"psat 2; 2;", ReadKind::Expected(What::Prob)),
    (b"psat 2; query 2", ReadKind::Expected(What::Prob)),
    (b"psat 2; query -", ReadKind::Expected(What::Prob)),
    (b"psat 2; P -", ReadKind::Expected(What::Paren)),
    (b"psat 2; P(-", ReadKind::Expected(What::Formula)),
    (b"psat 2; P(a -", ReadKind::Expected(What::Operator)),
    (b"psat 2; P(a +", ReadKind::Expected(What::Operator)),
    // No condition stands in a linear sentence.
    (b"psat 2; 2 P(a given", ReadKind::Expected(What::Operator)),
    (b"psat 2; -P(a given", ReadKind::Expected(What::Operator)),
    (
        b"psat 2; P(a) + P(b given",
        ReadKind::Expected(What::Operator),
    ),
    (
        b"psat 2; P(a given b) +",
        ReadKind::Expected(What::Relation),
    ),
    (b"psat 2; P(a) P", ReadKind::Expected(What::Relation)),
    (b"psat 2; 2 P(a);", ReadKind::Expected(What::Relation)),
    // No number of a plain sentence is below 0.
    (b"psat 2; P(a) = -", ReadKind::Expected(What::Number)),
    (b"psat 2; P(a) in [-", ReadKind::Expected(What::Number)),
    (b"psat 2; 2 P(a) = +", ReadKind::Expected(What::Number)),
    (b"psat 2; 2 P(a) = - -", ReadKind::Expected(What::Number)),
    (b"psat 2; 2 P(a) = P", ReadKind::Expected(What::Number)),
    (b"psat 2; P(a) = 1 +", ReadKind::Expected(What::Semicolon)),
    (b"psat 2; query P(a) +", ReadKind::Expected(What::Semicolon)),
    (b"psat 2; 1000001", ReadKind::NumberOutOfRange),
    (b"psat 2; -2000001/2", ReadKind::NumberOutOfRange),
    (b"psat 2; P(a) = 2", ReadKind::NumberOutOfRange),
    (b"psat 2; P(a) + 1000000.000001", ReadKind::NumberOutOfRange),
    (b"psat 2; 1 P(a) = 1000001", ReadKind::NumberOutOfRange),
    (
        b"psat 2; P(a) + P(b) in [0, 1000001",
        ReadKind::NumberOutOfRange,
    ),
    (b"psat 2; 3/0", ReadKind::ZeroDenominator),
    (b"psat 2; 1/1000001", ReadKind::DenominatorTooLarge),
    (b"psat 2; 1 P(a) = -0.1234567", ReadKind::TooManyDecimals),
    (b"psat 1; P(a) +", ReadKind::BadByte),
    (b"psat 1; -", ReadKind::BadByte),
];

// A piece that is repeated, how often, what follows it, and how the reading ends.
const REPEATED: [(&[u8], usize, &[u8], Answer); 6] = [
    (b"P(a) + ", 15, b"P(a)", Answer::Next(Part::Relation)),
    (b"P(a) + ", 15, b"P(a) =", Answer::Next(Part::Number)),
    (
        b"P(a) + ",
        15,
        b"P(a) +",
        Answer::Refused(ReadKind::TooManyTerms),
    ),
    (
        b"P(a) - ",
        15,
        b"2 P(a) -",
        Answer::Refused(ReadKind::TooManyTerms),
    ),
    (b"- P(a) ", 16, b"<=", Answer::Next(Part::Number)),
    (
        b"- P(a) ",
        16,
        b"-",
        Answer::Refused(ReadKind::TooManyTerms),
    ),
];

fn all_lead(alloc: Global) -> Result<bool, Fail> {
    for (text, part) in NEXT {
        if read(alloc, text)? != Answer::Next(part) {
            return Ok(false);
        }
    }
    Ok(true)
}

fn all_are_refused(alloc: Global) -> Result<bool, Fail> {
    for (text, kind) in REFUSED {
        if read(alloc, text)? != Answer::Refused(kind) {
            return Ok(false);
        }
    }
    Ok(true)
}

fn text(alloc: Global, piece: &[u8], times: usize, behind: &[u8]) -> Result<Vec<u8>, Fail> {
    let mut text = Vec::new(alloc);
    text.extend_from_slice(b"psat 2; ")?;
    for _ in 0..times {
        text.extend_from_slice(piece)?;
    }
    text.extend_from_slice(behind)?;
    Ok(text)
}

fn all_are_counted(alloc: Global) -> Result<bool, Fail> {
    for (piece, times, behind, answer) in REPEATED {
        let text = text(alloc, piece, times, behind)?;
        if read(alloc, text.as_slice())? != answer {
            return Ok(false);
        }
    }
    Ok(true)
}

#[test]
fn linear_sentences_go_on(rt: HostRuntime) -> Result<(), Fail> {
    assert!(rt; all_lead(rt.alloc())?);
    Ok(())
}

#[test]
fn tokens_of_linear_sentences_are_refused(rt: HostRuntime) -> Result<(), Fail> {
    assert!(rt; all_are_refused(rt.alloc())?);
    Ok(())
}

#[test]
fn the_term_past_the_sixteenth_is_refused(rt: HostRuntime) -> Result<(), Fail> {
    assert!(rt; all_are_counted(rt.alloc())?);
    Ok(())
}
