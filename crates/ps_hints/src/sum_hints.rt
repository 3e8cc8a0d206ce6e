//! Hints for sums of probabilities.
ghost use Rattle.ps_hints.specs.Hints.{IsAtItem, IsAtSign, IsHintFor};
ghost use Rattle.ps_text.specs.declared.kind.ReadKind.{ReadKind};
ghost use Rattle.ps_text.specs.declared.kind.ReadKind.TheVariants as kind;

use crate::found::number_at_front;
use crate::hint::Hint;
use crate::item_hints::{begins_with_probability, item_hint, word_first};
use crate::items::{Item, version_of};
use crate::spot::Spot;
use crate::words::{is_any, word_at_front};

/// Whether a term begins here: a `P`, perhaps behind a number, and a `*` between them.
pub(crate) fn begins_term(bytes: &[u8]) -> bool {
    let rest = bytes.trim_ascii_start();
    let behind = rest.get(number_at_front(rest).len()..).unwrap_or(&[]);
    let behind = behind.trim_ascii_start();
    let behind = behind.strip_prefix(b"*").unwrap_or(behind);
    is_any(word_at_front(behind.trim_ascii_start()), &["P"])
}

/// A hint for a sign outside of a probability's parentheses.
pub(crate) fn sum_hint(spot: &Spot) -> Hint
    ensures { (k : ReadKind) → IsAtSign k → IsHintFor result k }
{
    let item = Item::before(spot);
    if item.is_query() {
        Hint::QuerySum
    } else if item.has_given() {
        Hint::GivenInSum(version_of(spot.before))
    } else {
        Hint::Sum(version_of(spot.before))
    }
}

/// A hint for a sign behind a number, or before a term: the sign stands here, and this behind it.
pub(crate) fn sign_between_hint(spot: &Spot, behind: &[u8]) -> Hint
    ensures { (k : ReadKind) → IsAtSign k → IsHintFor result k }
{
    if !begins_term(behind) {
        Hint::Arithmetic
    } else if Item::before(spot).has_relation() {
        Hint::LeftSide(version_of(spot.before))
    } else {
        sum_hint(spot)
    }
}

/// A hint for a `*`.
pub(crate) fn times_hint(spot: &Spot, behind: &[u8]) -> Hint
    ensures { IsHintFor result kind.BadByte }
{
    let item = Item::before(spot);
    if item.is_in_formula() {
        Hint::And
    } else if item.is_empty() {
        Hint::Comment
    } else if spot.byte_before() == Some(b')') {
        Hint::Product
    } else if !item.has_relation() {
        Hint::Times
    } else if begins_term(behind) {
        Hint::CompareTimes(version_of(spot.before))
    } else {
        Hint::Arithmetic
    }
}

// A hint where a term's number or its `P` is expected and something else stands.
fn no_term_hint(spot: &Spot) -> Hint
    ensures { (k : ReadKind) → IsAtItem k → IsHintFor result k }
{
    if spot.follows("-") && spot.begins("-") {
        Hint::Comment
    } else if spot.begins_sign() {
        Hint::OneSign
    } else if !spot.begins_relation() {
        Hint::Term
    } else if !Item::before(spot).has_sign() && begins_with_probability(spot.behind) {
        Hint::Between
    } else {
        Hint::NumberAlone
    }
}

/// A hint where a term's number or its `P` is expected.
pub(crate) fn term_hint(spot: &Spot) -> Hint
    ensures { (k : ReadKind) → IsAtItem k → IsHintFor result k }
{
    match word_first(spot.word()) {
        Some(hint) => hint,
        None => no_term_hint(spot),
    }
}

/// A hint where a `P` is expected, behind `query` or a coefficient.
pub(crate) fn prob_hint(spot: &Spot) -> Hint
    ensures { (k : ReadKind) → IsAtItem k → IsHintFor result k }
{
    if Item::before(spot).is_sum() {
        term_hint(spot)
    } else {
        item_hint(spot)
    }
}
