//! Hints for relations and their numbers.
ghost use Rattle.std.specs.Prelude.{IfSome};
ghost use Rattle.ps_hints.specs.Hints.{IsAtNumber, IsInInterval, IsHintFor};
ghost use Rattle.ps_text.specs.declared.kind.ReadKind.{ReadKind};
ghost use Rattle.ps_text.specs.declared.kind.ReadKind.TheVariants as kind;
ghost use Rattle.ps_text.specs.declared.kind.What.TheVariants as what;

use crate::found::number_at_front;
use crate::hint::Hint;
use crate::items::{Item, version_of};
use crate::sign_hints::sign_hint;
use crate::spot::Spot;
use crate::sum_hints::begins_term;
use crate::words::{is_any, word_at_front};

// Whether a digit stands right before.
fn is_behind_digit(spot: &Spot) -> bool {
    matches!(spot.last(), Some(byte) if byte.is_ascii_digit())
}

// Whether a digit stands behind the byte that stands here.
fn is_before_digit(spot: &Spot) -> bool {
    matches!(spot.second(), Some(byte) if byte.is_ascii_digit())
}

// Whether the number behind which the spot is has a `/`.
fn is_behind_fraction(spot: &Spot) -> bool {
    match spot.before.iter().rposition(|byte| !byte.is_ascii_digit()) {
        Some(last) => spot.before[last] == b'/',
        None => false,
    }
}

/// A hint for what stands behind the front of a number.
pub(crate) fn behind_number(spot: &Spot) -> Option<Hint>
    ensures { IfSome result (λ h. (k : ReadKind) → IsAtNumber k → IsHintFor h k) }
{
    if !is_behind_digit(spot) {
        None
    } else if spot.begins(",") && is_before_digit(spot) {
        if is_behind_fraction(spot) {
            Some(Hint::Grouped)
        } else {
            Some(Hint::DecimalComma)
        }
    } else if spot.begins_any(&["e", "E"]) {
        Some(Hint::Exponent)
    } else {
        None
    }
}

/// A hint where a relation is expected.
pub(crate) fn relation_hint(spot: &Spot) -> Hint
    ensures { IsHintFor result (kind.Expected what.Relation) }
{
    if spot.begins_sign() {
        Hint::GivenInSum(version_of(spot.before))
    } else if spot.begins_any(&["&", "|", "->", "<->", "given"]) {
        Hint::Outside
    } else if spot.begins(")") {
        Hint::Unopened
    } else {
        Hint::Relation
    }
}

/// A hint where a number is expected.
pub(crate) fn number_hint(spot: &Spot) -> Hint
    ensures { IsHintFor result (kind.Expected what.Number) }
{
    if spot.follows("=") && spot.begins("=") {
        Hint::OneEquals
    } else if spot.begins_sign() {
        sign_hint(spot)
    } else if is_any(spot.word(), &["P"]) {
        Hint::Compare(version_of(spot.before))
    } else {
        Hint::Number
    }
}

/// A hint where a part of an interval is expected.
pub(crate) fn interval_hint(spot: &Spot) -> Hint
    ensures { (k : ReadKind) → IsInInterval k → IsHintFor result k }
{
    match behind_number(spot) {
        Some(hint) => hint,
        None => Hint::Interval,
    }
}

// What stands behind the number that stands here, and the blanks behind it.
fn rest_behind_number<'t>(spot: &Spot<'t>) -> &'t [u8] {
    spot.rest_behind(number_at_front(spot.behind).len())
}

// Whether a percent sign stands behind a number, or its word.
fn is_percent(rest: &[u8]) -> bool {
    rest.starts_with(b"%") || is_any(word_at_front(rest), &["percent", "per", "pct"])
}

// Whether the number here is the part behind a decimal comma.
fn is_behind_comma(spot: &Spot) -> bool {
    match spot.before {
        [.., digit, b','] => digit.is_ascii_digit(),
        _ => false,
    }
}

/// A hint for a number that is too great.
pub(crate) fn value_hint(spot: &Spot) -> Hint
    ensures { IsHintFor result kind.NumberOutOfRange }
{
    let item = Item::before(spot);
    if item.is_empty() || item.is_sum() {
        Hint::Divide
    } else if begins_term(spot.behind) {
        Hint::CompareTimes(version_of(spot.before))
    } else {
        probability_hint(spot)
    }
}

// A hint for a value above 1.
fn probability_hint(spot: &Spot) -> Hint
    ensures { IsHintFor result kind.NumberOutOfRange }
{
    let rest = rest_behind_number(spot);
    if is_percent(rest) {
        Hint::Percent
    } else if is_any(word_at_front(rest), &["in", "of", "out"]) {
        Hint::Frequency
    } else if is_behind_comma(spot) {
        Hint::DecimalComma
    } else {
        Hint::AboveOne
    }
}
