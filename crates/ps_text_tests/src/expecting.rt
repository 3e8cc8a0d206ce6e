//! Texts worked out by hand from the tables of refusals and of what is expected.
mod depths;
mod reading;
mod sums;

use self::reading::{Answer, read};
use ps_text::{Part, ReadKind, What};
use std::alloc::Global;
use std::test::Fail;

const NEXT: [(&[u8], Part); 23] = [
    (b"", Part::Psat),
    (b" # psat\n", Part::Psat),
    (b"psat", Part::Version),
    (b"psat 1", Part::HeadEnd),
    (b"psat 1;", Part::Item),
    (b"psat 1; query", Part::QueryProb),
    (b"psat 1; query P", Part::Paren),
    (b"psat 1; P(", Part::Operand),
    (b"psat 1; P(true", Part::Operator),
    (b"psat 1; P(false | !", Part::Operand),
    (
        b"psat 1; P(aaaaaaaaaaaaaaaaaaaaaaaaaaaaaaaa",
        Part::Operator,
    ),
    (b"psat 1; P(a)", Part::Relation),
    (b"psat 1; query P(a)", Part::ItemEnd),
    (b"psat 1; P(a) <=", Part::Number),
    (b"psat 1; P(a) = 1", Part::ItemEnd),
    (b"psat 1; P(a) in", Part::Bracket),
    (b"psat 1; P(a) in [", Part::First),
    (b"psat 1; P(a) in [1", Part::Comma),
    (b"psat 1; P(a) in [1, ", Part::Second),
    (b"psat 1; P(a) in [1, 0", Part::BracketEnd),
    (b"psat 1; end", Part::TextEnd),
    (b"psat 1; end;", Part::Done),
    (
        b"psat 1; P(a | b given c) in [1/4, 0.75]; query P(!a <-> (b -> true)); P(b) >= 1; end;\n",
        Part::Done,
    ),
];

// Conditions, which stand where no parenthesis is open.
const GIVEN: [(&[u8], Part); 7] = [
    (b"psat 1; P(a given", Part::Operand),
    (b"psat 1; P(a given b)", Part::Relation),
    (b"psat 1; P(a -> !(b) given", Part::Operand),
    (b"psat 1; P((a -> b) & c given", Part::Operand),
    (b"psat 1; query P(a given b & c)", Part::ItemEnd),
    (b"psat 1; P(a given b) = 1; P(a given", Part::Operand),
    (
        b"psat 1; query P(a given b); query P(b given a)",
        Part::ItemEnd,
    ),
];

const UNEXPECTED: [(&[u8], What); 25] = [
    (b"P", What::Psat),
    (b"psat ;", What::Version),
    (b"psat 1 P", What::Semicolon),
    (b"psat 1;;", What::Item),
    (b"psat 1; a", What::Item),
    (b"psat 1; query query", What::Prob),
    (b"psat 1; P a", What::Paren),
    (b"psat 1; P()", What::Formula),
    (b"psat 1; P(in", What::Formula),
    (b"psat 1; P(given", What::Formula),
    (b"psat 1; P(a -> & b", What::Formula),
    (b"psat 1; P(a !", What::Operator),
    (b"psat 1; P(a 1", What::Operator),
    (b"psat 1; P((a given", What::Operator),
    (b"psat 1; P(a given b given", What::Operator),
    (b"psat 1; P(a given (b given", What::Operator),
    (b"psat 1; P(a);", What::Relation),
    (b"psat 1; P(a) = a", What::Number),
    (b"psat 1; P(a) in 1", What::Bracket),
    (b"psat 1; P(a) in [0; ", What::Comma),
    (b"psat 1; P(a) in [0, 1)", What::BracketEnd),
    (b"psat 1; P(a) in [0, 1] ]", What::Semicolon),
    (b"psat 1; P(a) = 1 query", What::Semicolon),
    (b"psat 1; query P(a) = 1", What::Semicolon),
    (b"psat 1; end end", What::Semicolon),
];

const LONG_WORDS: [&[u8]; 8] = [
    b"aaaaaaaaaaaaaaaaaaaaaaaaaaaaaaaaa",
    b"psat aaaaaaaaaaaaaaaaaaaaaaaaaaaaaaaaa",
    b"psat 1; aaaaaaaaaaaaaaaaaaaaaaaaaaaaaaaaa",
    b"psat 1; P(aaaaaaaaaaaaaaaaaaaaaaaaaaaaaaaaa",
    b"psat 1; P(aaaaaaaaaaaaaaaaaaaaaaaaaaaaaaaaaaaaaaaaaaaaaaaaaaaaaaaaaaaaaaaaaa)",
    b"psat 1; P(a aaaaaaaaaaaaaaaaaaaaaaaaaaaaaaaaa",
    b"psat 1; P(a) = aaaaaaaaaaaaaaaaaaaaaaaaaaaaaaaaa",
    b"psat 1; end aaaaaaaaaaaaaaaaaaaaaaaaaaaaaaaaa",
];

const VERSIONS: [&[u8]; 9] = [
    b"psat 3",
    b"psat 02",
    b"psat 2/1",
    b"psat 0",
    b"psat 01",
    b"psat 11",
    b"psat 1.0",
    b"psat 1/1",
    b"psat 3/0",
];

const NUMBERS: [(&[u8], ReadKind); 17] = [
    (b"psat 1; P(a) = 3/0", ReadKind::ZeroDenominator),
    (b"psat 1; P(a) = 0/00", ReadKind::ZeroDenominator),
    (b"psat 1; P(a) = 1/1000001", ReadKind::DenominatorTooLarge),
    (
        b"psat 1; P(a) = 9000000/1000001",
        ReadKind::DenominatorTooLarge,
    ),
    (
        b"psat 1; P(a) = 1/99999999999",
        ReadKind::DenominatorTooLarge,
    ),
    (b"psat 1; P(a) = 0.1234567", ReadKind::TooManyDecimals),
    (b"psat 1; P(a) = 9.1234567", ReadKind::TooManyDecimals),
    (b"psat 1; P(a) = 1.00000000", ReadKind::TooManyDecimals),
    (b"psat 1; P(a) = 2", ReadKind::NumberOutOfRange),
    (b"psat 1; P(a) >= 10", ReadKind::NumberOutOfRange),
    (b"psat 1; P(a) <= 3/2", ReadKind::NumberOutOfRange),
    (
        b"psat 1; P(a) = 1000001/1000000",
        ReadKind::NumberOutOfRange,
    ),
    (b"psat 1; P(a) = 1.5", ReadKind::NumberOutOfRange),
    (b"psat 1; P(a) = 1.000001", ReadKind::NumberOutOfRange),
    (b"psat 1; P(a) in [2", ReadKind::NumberOutOfRange),
    (b"psat 1; P(a) in [0, 2", ReadKind::NumberOutOfRange),
    (b"psat 1; P(a) in [0, 3/0", ReadKind::ZeroDenominator),
];

const PROBABILITIES: [&[u8]; 9] = [
    b"psat 1; P(a) = 0",
    b"psat 1; P(a) = 0001",
    b"psat 1; P(a) = 0/1",
    b"psat 1; P(a) = 7/7",
    b"psat 1; P(a) = 1/1000000",
    b"psat 1; P(a) = 1000000/0001000000",
    b"psat 1; P(a) = 0.123456",
    b"psat 1; P(a) = 1.000000",
    b"psat 1; P(a) = 0.999999",
];

fn all_lead(alloc: Global, texts: &[(&[u8], Part)]) -> Result<bool, Fail> {
    for (text, part) in texts {
        if read(alloc, text)? != Answer::Next(*part) {
            return Ok(false);
        }
    }
    Ok(true)
}

fn all_answer(alloc: Global, texts: &[&[u8]], answer: Answer) -> Result<bool, Fail> {
    for text in texts {
        if read(alloc, text)? != answer {
            return Ok(false);
        }
    }
    Ok(true)
}

fn all_are_unexpected(alloc: Global) -> Result<bool, Fail> {
    for (text, what) in UNEXPECTED {
        if read(alloc, text)? != Answer::Refused(ReadKind::Expected(what)) {
            return Ok(false);
        }
    }
    Ok(true)
}

fn all_are_no_probabilities(alloc: Global) -> Result<bool, Fail> {
    for (text, kind) in NUMBERS {
        if read(alloc, text)? != Answer::Refused(kind) {
            return Ok(false);
        }
    }
    Ok(true)
}

#[test]
fn texts_go_on(rt: HostRuntime) -> Result<(), Fail> {
    let taken = Answer::Next(Part::ItemEnd);
    assert!(rt; all_lead(rt.alloc(), &NEXT)? && all_lead(rt.alloc(), &GIVEN)?);
    assert!(rt; all_answer(rt.alloc(), &PROBABILITIES, taken)?);
    Ok(())
}

#[test]
fn tokens_are_refused(rt: HostRuntime) -> Result<(), Fail> {
    assert!(rt; all_are_unexpected(rt.alloc())? && all_are_no_probabilities(rt.alloc())?);
    Ok(())
}

#[test]
fn words_and_versions_are_refused(rt: HostRuntime) -> Result<(), Fail> {
    let long = Answer::Refused(ReadKind::NameTooLong);
    let unknown = Answer::Refused(ReadKind::VersionUnknown);
    assert!(rt; all_answer(rt.alloc(), &LONG_WORDS, long)?);
    assert!(rt; all_answer(rt.alloc(), &VERSIONS, unknown)?);
    Ok(())
}
