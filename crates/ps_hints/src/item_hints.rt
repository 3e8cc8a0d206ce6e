//! Hints for what begins and ends a text, its sentences and its queries.
ghost use Rattle.std.specs.Prelude.{IfSome};
ghost use Rattle.ps_hints.specs.Hints.{IsAtHead, IsAtItem, IsHintFor};
ghost use Rattle.ps_text.specs.declared.kind.ReadKind.{ReadKind};
ghost use Rattle.ps_text.specs.declared.kind.ReadKind.TheVariants as kind;
ghost use Rattle.ps_text.specs.declared.kind.What.TheVariants as what;

use crate::found::number_at_front;
use crate::hint::Hint;
use crate::items::{Item, version_of};
use crate::mistypes::is_mistyped;
use crate::number_hints::behind_number;
use crate::sign_hints::{is_digit, sign_hint};
use crate::spot::Spot;
use crate::sum_hints::begins_term;
use crate::words::{is_any, is_reserved_in_other_letters, is_word_byte};

// A hint for a `;` where an item is expected.
fn semicolon_first(spot: &Spot) -> Hint
    ensures { (k : ReadKind) → IsAtItem k → IsHintFor result k }
{
    match spot.line_behind() {
        [_, text @ ..] if spot.begins_line() && !text.trim_ascii().is_empty() => Hint::Comment,
        _ => Hint::OneSemicolon,
    }
}

/// Whether the first word in some bytes begins as a probability does.
pub(crate) fn begins_with_probability(bytes: &[u8]) -> bool {
    match bytes.iter().position(|byte| is_word_byte(*byte)) {
        Some(first) => bytes[first] == b'P',
        None => false,
    }
}

// A hint for a number that stands first, with what stands behind it.
fn number_first(spot: &Spot, rest: &[u8]) -> Hint
    ensures { (k : ReadKind) → IsAtItem k → IsHintFor result k }
{
    match rest {
        [b'*' | b'P' | b'+' | b'-' | b'/', ..] if Item::before(spot).is_query() => Hint::QuerySum,
        [b'*' | b'P' | b'+' | b'-' | b'/', ..] => Hint::Sum(version_of(spot.before)),
        [b'<' | b'>' | b'=' | 0x80.., ..] if begins_with_probability(rest) => Hint::Between,
        _ => Hint::Item,
    }
}

/// A hint for a word where an item is expected.
pub(crate) fn word_first(word: &[u8]) -> Option<Hint>
    ensures { IfSome result (λ h. (k : ReadKind) → IsAtItem k → IsHintFor h k) }
{
    if is_any(word, &["Pr", "PR", "pr", "p", "Prob", "prob", "PROB"]) {
        Some(Hint::Probability)
    } else if is_reserved_in_other_letters(word) {
        Some(Hint::SmallLetters)
    } else if is_mistyped(word, "query") || is_any(word, &["queries", "ask"]) {
        Some(Hint::QueryMeant)
    } else if is_mistyped(word, "end") {
        Some(Hint::EndMeant)
    } else {
        None
    }
}

/// A hint where a sentence, a query or `end` is expected.
pub(crate) fn item_hint(spot: &Spot) -> Hint
    ensures { (k : ReadKind) → IsAtItem k → IsHintFor result k }
{
    if let Some(hint) = word_first(spot.word()) {
        return hint;
    }
    let number = number_at_front(spot.behind);
    if !number.is_empty() {
        number_first(spot, spot.rest_behind(number.len()))
    } else if spot.begins(";") {
        semicolon_first(spot)
    } else {
        Hint::Item
    }
}

// A hint for a second relation.
fn relation_again(spot: &Spot) -> Hint
    ensures { IsHintFor result (kind.Expected what.Semicolon) }
{
    if Item::before(spot).is_query() {
        Hint::QueryValue
    } else if is_any(spot.word(), &["in"]) {
        Hint::Frequency
    } else {
        Hint::Between
    }
}

// Whether a number stands here behind another on its line.
fn is_number_again(spot: &Spot) -> bool {
    let before = spot.line_before().trim_ascii_end().last();
    match (before, spot.first()) {
        (Some(last), Some(first)) => last.is_ascii_digit() && first.is_ascii_digit(),
        _ => false,
    }
}

// Whether a `P` stands here behind a number of its line, and its item ends behind the next `)`.
fn is_last_term(spot: &Spot) -> bool {
    let behind = match spot.behind.iter().position(|byte| *byte == b')') {
        Some(end) => spot.rest_behind(end.saturating_add(1)),
        None => return false,
    };
    is_digit(spot.line_before().trim_ascii_end().last().copied())
        && begins_term(spot.behind)
        && behind.starts_with(b";")
}

// A hint for what stands where a `;` is expected.
fn semicolon_missing(spot: &Spot) -> Hint
    ensures { IsHintFor result (kind.Expected what.Semicolon) }
{
    if spot.begins_sign() {
        sign_hint(spot)
    } else if spot.begins(")") {
        Hint::Unopened
    } else if spot.begins_relation() {
        relation_again(spot)
    } else if is_last_term(spot) {
        Hint::CompareTimes(version_of(spot.before))
    } else if is_any(spot.word(), &["of", "out"]) {
        Hint::Frequency
    } else if is_number_again(spot) {
        Hint::Grouped
    } else {
        Hint::Semicolon
    }
}

/// A hint where a `;` is expected.
pub(crate) fn semicolon_hint(spot: &Spot) -> Hint
    ensures { IsHintFor result (kind.Expected what.Semicolon) }
{
    match behind_number(spot) {
        Some(hint) => hint,
        None => semicolon_missing(spot),
    }
}

/// A hint where `psat` or the version is expected.
pub(crate) fn begin_hint(spot: &Spot) -> Hint
    ensures { (k : ReadKind) → IsAtHead k → IsHintFor result k }
{
    if spot.second() == Some(0) {
        Hint::Wide
    } else if is_reserved_in_other_letters(spot.word()) {
        Hint::SmallLetters
    } else {
        Hint::Begin
    }
}
