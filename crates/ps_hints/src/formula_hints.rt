//! Hints for formulas.
ghost use Rattle.std.specs.Prelude.{IfSome};
ghost use Rattle.ps_hints.specs.Hints.{IsHintFor};
ghost use Rattle.ps_text.specs.declared.kind.ReadKind.TheVariants as kind;
ghost use Rattle.ps_text.specs.declared.kind.What.TheVariants as what;

use crate::found::number_at_front;
use crate::hint::Hint;
use crate::items::{Item, version_of};
use crate::mistypes::is_mistyped;
use crate::sign_hints::sign_hint;
use crate::spot::Spot;
use crate::words::{
    NOT, is_any, is_reserved, is_reserved_in_other_letters, is_word_byte, word_at_front,
};

// A hint for a word for an operator.
fn operator_in_words(word: &[u8]) -> Option<Hint>
    ensures { IfSome result (λ h. IsHintFor h (kind.Expected what.Operator)) }
{
    if is_any(word, &["and", "AND", "And"]) {
        Some(Hint::And)
    } else if is_any(word, &["or", "OR", "Or"]) {
        Some(Hint::Or)
    } else if is_any(word, &["xor", "XOR", "Xor"]) {
        Some(Hint::Xor)
    } else if is_any(word, &["implies", "IMPLIES", "then"]) {
        Some(Hint::Implies)
    } else if is_any(word, &["iff", "IFF"]) {
        Some(Hint::Iff)
    } else {
        None
    }
}

// A hint for a word where an operator is expected.
fn operator_word(spot: &Spot) -> Option<Hint>
    ensures { IfSome result (λ h. IsHintFor h (kind.Expected what.Operator)) }
{
    let word = spot.word();
    if is_any(spot.word_before(), NOT) {
        Some(Hint::Not)
    } else if is_any(spot.word_before(), &["if", "If", "IF"]) {
        Some(Hint::Implies)
    } else if is_any(word, &["given"]) {
        Some(if Item::before(spot).is_sum() {
            Hint::GivenInSum(version_of(spot.before))
        } else {
            Hint::OneGiven
        })
    } else if is_reserved_in_other_letters(word) {
        Some(Hint::SmallLetters)
    } else if is_mistyped(word, "given") || is_any(word, &["if", "when", "assuming"]) {
        Some(Hint::GivenMeant)
    } else {
        operator_in_words(word)
    }
}

// What follows a `=` where an operator is expected.
fn equation_hint(spot: &Spot) -> Hint
    ensures { IsHintFor result (kind.Expected what.Operator) }
{
    let rest = spot.rest_behind(1);
    let number = number_at_front(rest);
    if !number.is_empty() {
        match rest.get(number.len()..).unwrap_or(&[]).trim_ascii_start() {
            [b')', ..] => Hint::Equated,
            _ => Hint::Unclosed,
        }
    } else if is_reserved(word_at_front(rest)) || !matches!(rest, [b, ..] if is_word_byte(*b)) {
        Hint::Unclosed
    } else {
        Hint::Iff
    }
}

// A hint for a sign where an operator is expected.
fn operator_sign(spot: &Spot) -> Hint
    ensures { IsHintFor result (kind.Expected what.Operator) }
{
    if spot.begins_sign() {
        sign_hint(spot)
    } else if spot.begins_any(&["=>", "==>"]) {
        Hint::Implies
    } else if spot.begins_any(&["==", "<=>"]) {
        Hint::Iff
    } else if spot.begins(",") {
        Hint::And
    } else if spot.begins("=") {
        equation_hint(spot)
    } else if spot.begins_any(&["<=", ">=", "in ", ";"]) {
        Hint::Unclosed
    } else {
        Hint::Joined
    }
}

/// A hint where an operator is expected.
pub(crate) fn operator_hint(spot: &Spot) -> Hint
    ensures { IsHintFor result (kind.Expected what.Operator) }
{
    match operator_word(spot) {
        Some(hint) => hint,
        None => operator_sign(spot),
    }
}

// Whether a word is a truth value as a digit.
fn is_truth_digit(word: &[u8]) -> bool {
    is_any(word, &["0", "1"])
}

/// A hint where an operand is expected.
pub(crate) fn operand_hint(spot: &Spot) -> Hint
    ensures { IsHintFor result (kind.Expected what.Formula) }
{
    let word = spot.word();
    if spot.follows("&") && spot.begins("&") {
        Hint::OneAnd
    } else if spot.follows("|") && spot.begins("|") {
        Hint::OneOr
    } else if spot.begins_sign() {
        sign_hint(spot)
    } else if is_truth_digit(word) {
        Hint::Truth
    } else if matches!(spot.first(), Some(byte) if byte.is_ascii_digit()) {
        Hint::DigitFirst
    } else if is_reserved(word) {
        Hint::Reserved
    } else {
        Hint::Operand
    }
}
