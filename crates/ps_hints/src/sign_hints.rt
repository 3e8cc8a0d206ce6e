//! Hints for a `+` and a `-`.
ghost use Rattle.ps_hints.specs.Hints.{IsAtSign, IsHintFor};
ghost use Rattle.ps_text.specs.declared.kind.ReadKind.{ReadKind};

use crate::hint::Hint;
use crate::items::Item;
use crate::spot::Spot;
use crate::sum_hints::{begins_term, sign_between_hint, sum_hint};
use crate::words::is_word_byte;

/// Whether a byte is a digit.
pub(crate) fn is_digit(byte: Option<u8>) -> bool {
    matches!(byte, Some(b) if b.is_ascii_digit())
}

// Whether a byte may stand in a name.
fn is_of_name(byte: Option<u8>) -> bool {
    matches!(byte, Some(b) if is_word_byte(b))
}

// A hint for a minus in a formula, with what stands behind it.
fn minus_in_formula(spot: &Spot, behind: &[u8]) -> Hint
    ensures { (k : ReadKind) → IsAtSign k → IsHintFor result k }
{
    if is_of_name(behind.first().copied()) && is_of_name(spot.last()) {
        Hint::Hyphen
    } else {
        Hint::Negative
    }
}

// A hint for a minus outside of formulas and intervals, with what stands behind it.
fn minus_outside(spot: &Spot, behind: &[u8]) -> Hint
    ensures { (k : ReadKind) → IsAtSign k → IsHintFor result k }
{
    if spot.byte_before() == Some(b')') {
        sum_hint(spot)
    } else if is_digit(spot.byte_before()) || begins_term(behind) {
        sign_between_hint(spot, behind)
    } else {
        Hint::Negative
    }
}

/// A hint for a minus or a dash, with what stands behind it.
pub(crate) fn minus_hint(spot: &Spot, behind: &[u8]) -> Hint
    ensures { (k : ReadKind) → IsAtSign k → IsHintFor result k }
{
    let item = Item::before(spot);
    if behind.starts_with(b">") || spot.begins("-->") {
        Hint::Implies
    } else if spot.begins("--") {
        Hint::Comment
    } else if item.is_in_interval() {
        Hint::Interval
    } else if item.is_in_formula() {
        minus_in_formula(spot, behind)
    } else {
        minus_outside(spot, behind)
    }
}

/// A hint for a plus.
pub(crate) fn plus_hint(spot: &Spot) -> Hint
    ensures { (k : ReadKind) → IsAtSign k → IsHintFor result k }
{
    if spot.begins_any(&["+-", "+/-"]) {
        Hint::Margin
    } else if Item::before(spot).is_in_formula() {
        Hint::Or
    } else if is_digit(spot.byte_before()) {
        sign_between_hint(spot, spot.rest_behind(1))
    } else {
        sum_hint(spot)
    }
}

/// A hint for a `+` or a `-` where none is expected: both are signs of version 2.
pub(crate) fn sign_hint(spot: &Spot) -> Hint
    ensures { (k : ReadKind) → IsAtSign k → IsHintFor result k }
{
    if spot.begins("+") {
        plus_hint(spot)
    } else {
        minus_hint(spot, spot.behind.get(1..).unwrap_or(&[]))
    }
}
