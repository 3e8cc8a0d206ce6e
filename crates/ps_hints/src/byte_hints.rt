//! Hints for bytes with which no token begins.
ghost use Rattle.std.specs.Prelude.{IfSome};
ghost use Rattle.ps_hints.specs.Hints.{IsHintFor};
ghost use Rattle.ps_text.specs.declared.kind.ReadKind.TheVariants as kind;

use crate::hint::Hint;
use crate::items::Item;
use crate::letter_hints::letter_hint;
use crate::sign_hints::{is_digit, minus_hint, plus_hint};
use crate::spot::Spot;
use crate::sum_hints::times_hint;

// Whether the number behind which the spot is has its point, as `0.3` and not as `3`.
fn is_behind_decimal(spot: &Spot) -> bool {
    match spot.before.iter().rposition(|byte| !byte.is_ascii_digit()) {
        Some(last) => spot.before[last] == b'.',
        None => false,
    }
}

// A hint for a point.
fn point(spot: &Spot) -> Hint
    ensures { IsHintFor result kind.BadByte }
{
    if spot.begins("..") {
        Hint::Interval
    } else if spot.follows("end") {
        Hint::End
    } else if is_behind_decimal(spot) {
        Hint::Semicolon
    } else if is_digit(spot.last()) {
        Hint::PointLast
    } else if is_digit(spot.second()) {
        Hint::PointFirst
    } else {
        Hint::Letters
    }
}

// A hint for a slash.
fn slash(spot: &Spot) -> Hint
    ensures { IsHintFor result kind.BadByte }
{
    match spot.second() {
        Some(b'\\') => Hint::And,
        Some(b'/' | b'*') => Hint::Comment,
        _ if spot.byte_before() == Some(b')') => Hint::Quotient,
        _ => Hint::BlankFraction,
    }
}

// A hint for a `%`.
fn percent(spot: &Spot) -> Hint
    ensures { IsHintFor result kind.BadByte }
{
    if Item::before(spot).is_empty() {
        Hint::Comment
    } else {
        Hint::Percent
    }
}

// A hint for a colon.
fn colon(spot: &Spot) -> Hint
    ensures { IsHintFor result kind.BadByte }
{
    if Item::before(spot).is_in_formula() {
        Hint::GivenMeant
    } else {
        Hint::Equals
    }
}

// A hint for a `_`.
fn underscore(spot: &Spot) -> Hint
    ensures { IsHintFor result kind.BadByte }
{
    if is_digit(spot.last()) {
        Hint::Grouped
    } else {
        Hint::DigitFirst
    }
}

// A hint for a sign of comparison.
fn comparison(spot: &Spot) -> Hint
    ensures { IsHintFor result kind.BadByte }
{
    if spot.begins("<-") {
        Hint::Backwards
    } else if spot.begins("<") {
        if spot.follows("=") {
            Hint::AtMostSign
        } else {
            Hint::AtMost
        }
    } else if spot.follows("=") {
        Hint::AtLeastSign
    } else {
        Hint::AtLeast
    }
}

// A hint for a byte by itself.
fn byte_by_itself(spot: &Spot, byte: u8) -> Option<Hint>
    ensures { IfSome result (λ h. IsHintFor h kind.BadByte) }
{
    match byte {
        0 => Some(Hint::Wide),
        b'%' => Some(percent(spot)),
        b'.' => Some(point(spot)),
        b'<' | b'>' => Some(comparison(spot)),
        b'-' => Some(minus_hint(spot, spot.behind.get(1..).unwrap_or(&[]))),
        b'/' => Some(slash(spot)),
        b'\\' => Some(Hint::Or),
        b'+' => Some(plus_hint(spot)),
        b'*' => Some(times_hint(spot, spot.rest_behind(1))),
        b':' => Some(colon(spot)),
        b'?' => Some(Hint::Ask),
        b'_' => Some(underscore(spot)),
        b'~' => Some(Hint::Not),
        b'^' => Some(Hint::And),
        b'"' | b'\'' | b'`' => Some(Hint::Quote),
        0x80.. => Some(Hint::Letters),
        _ => None,
    }
}

// A hint for a mark at the front that tells how the text is encoded.
fn mark_hint(spot: &Spot) -> Option<Hint>
    ensures { IfSome result (λ h. IsHintFor h kind.BadByte) }
{
    if !spot.before.is_empty() {
        None
    } else if spot.begins("\u{feff}") {
        Some(Hint::ByteOrderMark)
    } else if matches!(spot.behind, [0xff, 0xfe, ..] | [0xfe, 0xff, ..]) {
        Some(Hint::Wide)
    } else {
        None
    }
}

// A hint for a character beyond ASCII.
fn character_hint(spot: &Spot, c: char) -> Option<Hint>
    ensures { IfSome result (λ h. IsHintFor h kind.BadByte) }
{
    let behind = spot.behind.get(c.len_utf8()..).unwrap_or(&[]);
    match c {
        '−' | '–' | '—' | '‐' | '‑' | '－' => Some(minus_hint(spot, behind)),
        '×' | '·' => Some(times_hint(spot, behind)),
        '÷' => Some(slash(spot)),
        _ => letter_hint(c),
    }
}

// A hint for what stands here by itself.
fn hint_here(spot: &Spot) -> Option<Hint>
    ensures { IfSome result (λ h. IsHintFor h kind.BadByte) }
{
    match spot.character() {
        Some(c) if !c.is_ascii() => match character_hint(spot, c) {
            Some(hint) => Some(hint),
            None => Some(Hint::Letters),
        },
        _ => byte_by_itself(spot, spot.first()?),
    }
}

/// A hint for a byte with which no token begins.
pub(crate) fn byte_hint(spot: &Spot) -> Option<Hint>
    ensures { IfSome result (λ h. IsHintFor h kind.BadByte) }
{
    match mark_hint(spot) {
        Some(hint) => Some(hint),
        None => hint_here(spot),
    }
}
