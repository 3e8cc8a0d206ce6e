//! What is expected in place of what was found.
ghost use Rattle.std.specs.Prelude.{◌↔◌, IsNone};
ghost use Rattle.ps_hints.specs.Hints.{IsCount};

use crate::items::{Item, version_of};
use crate::spot::Spot;
use ps_read::{ReadKind, What};
use ps_text::Version;

// What is expected behind a probability or a term.
fn relation_text(spot: &Spot) -> &'static str {
    match version_of(spot.before) {
        Version::Two if !Item::before(spot).has_given() => { "`+`, `-`, `=`, `>=`, `<=` or `in`" }
        _ => "`=`, `>=`, `<=` or `in`",
    }
}

// What is expected behind an operand: no `given` in a linear sentence.
fn operator_text(spot: &Spot) -> &'static str {
    if Item::before(spot).is_sum() {
        "`&`, `|`, `->`, `<->` or `)`"
    } else {
        "`&`, `|`, `->`, `<->`, `given` or `)`"
    }
}

// Which numbers are expected: in a linear sentence greater ones than in a plain one.
fn range_text(spot: &Spot) -> &'static str {
    let item = Item::before(spot);
    if item.is_empty() || item.is_sum() {
        "a number of at most 1000000"
    } else {
        "a number from 0 to 1"
    }
}

// What is expected, where it is a token or a formula.
fn expected_text(what: What, spot: &Spot) -> &'static str {
    match what {
        What::Psat => "`psat 1;` or `psat 2;`",
        What::Version => "the version 1 or 2",
        What::Semicolon => "`;`",
        What::Item => "`P`, `query` or `end`",
        What::Item2 => "a sentence, `query` or `end`",
        What::Term => "a number or `P`",
        What::Prob => "`P`",
        What::Paren => "`(`",
        What::Formula => "a formula",
        What::Operator => operator_text(spot),
        What::Relation => relation_text(spot),
        What::Number => "a number",
        What::Bracket => "`[`",
        What::Comma => "`,`",
        What::BracketEnd => "`]`",
    }
}

/// What is expected in place of what was found at a spot; `None` where a count is refused.
pub(crate) fn expectation(kind: ReadKind, spot: &Spot) -> Option<&'static str>
    ensures { IsNone result ↔ IsCount kind }
{
    match kind {
        ReadKind::BadByte => Some("a word, a number or a sign"),
        ReadKind::Expected(what) => Some(expected_text(what, spot)),
        ReadKind::NameTooLong => Some("a name of at most 32 bytes"),
        ReadKind::VersionUnknown => Some("the version 1 or 2"),
        ReadKind::ZeroDenominator => Some("a denominator of at least 1"),
        ReadKind::DenominatorTooLarge => Some("a denominator of at most 1000000"),
        ReadKind::TooManyDecimals => Some("at most 6 digits behind the point"),
        ReadKind::NumberOutOfRange => Some(range_text(spot)),
        ReadKind::TooDeep => Some("at most 100 open `!`, `(` and `->`"),
        ReadKind::TooManyTerms => Some("at most 16 terms in a sentence"),
        ReadKind::EndMissing => Some("more, up to `end;`"),
        ReadKind::MoreAfterEnd => Some("nothing behind `end;`"),
        ReadKind::TooManyAtoms
        | ReadKind::TooManyNodes
        | ReadKind::TooManyBounds
        | ReadKind::TooManyQueries
        | ReadKind::LinearTooLarge => None,
    }
}

/// What there is too much of with an item, where a count is refused.
pub(crate) fn excess(kind: ReadKind) -> &'static str
    requires { IsCount kind }
{
    match kind {
        ReadKind::TooManyAtoms => "there are more than 128 atoms",
        ReadKind::TooManyNodes => "there are more than 1024 different formulas",
        ReadKind::TooManyBounds => "there are more than 100 bounds",
        ReadKind::TooManyQueries => "there are more than 16 queries",
        ReadKind::LinearTooLarge => "a sentence's numbers are too large",
        _ => unreachable!(),
    }
}
