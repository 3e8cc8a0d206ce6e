//! Numbers of any size at the front of a text, which are looked at and not kept.
ghost use Rattle.std.specs.Prelude.{◌<◌, ◌↔◌, IfSome, IfNone, IsTrue, length};
ghost use Rattle.ps_log.specs.LongTexts.{SpellsSome, IsCountOf, IsPositiveOf, IsNonzeroOf, IsAnyOf};
ghost use Rattle.ps_log.specs.LongTexts.{StartsWith, EndsWithIt, StartsWithTerm, EndsWithTerm};

use crate::numeral::number;
use crate::words::split_word;

/// What follows a number that is no less than 0, where something does.
pub(crate) fn after_count(text: &[u8]) -> Option<&[u8]>
    ensures found { IfSome result (λ rest. StartsWith IsCountOf text.now rest.now) }
    ensures shorter { IfSome result (λ rest. length rest.now < length text.now) }
    ensures none { IfNone result (EndsWithIt IsCountOf text.now) }
{
    match split_word(text) {
        (word, Some(rest)) if is_count(word) => Some(rest),
        _ => None,
    }
}

/// What follows a number other than 0, where something does.
pub(crate) fn after_nonzero(text: &[u8]) -> Option<&[u8]>
    ensures found { IfSome result (λ rest. StartsWith IsNonzeroOf text.now rest.now) }
    ensures shorter { IfSome result (λ rest. length rest.now < length text.now) }
    ensures none { IfNone result (EndsWithIt IsNonzeroOf text.now) }
{
    match split_word(text) {
        (word, Some(rest)) if is_nonzero(word) => Some(rest),
        _ => None,
    }
}

/// What follows a number, where something does.
pub(crate) fn after_number(text: &[u8]) -> Option<&[u8]>
    ensures found { IfSome result (λ rest. StartsWith IsAnyOf text.now rest.now) }
    ensures shorter { IfSome result (λ rest. length rest.now < length text.now) }
    ensures none { IfNone result (EndsWithIt IsAnyOf text.now) }
{
    match split_word(text) {
        (word, Some(rest)) if is_number(word) => Some(rest),
        _ => None,
    }
}

/// What follows a coefficient and a literal, where something does.
pub(crate) fn after_term(text: &[u8]) -> Option<&[u8]>
    ensures found { IfSome result (λ rest. StartsWithTerm text.now rest.now) }
    ensures shorter { IfSome result (λ rest. length rest.now < length text.now) }
    ensures none { IfNone result (EndsWithTerm text.now) }
{
    let rest = after_positive(text)?;
    after_number(rest)
}

fn after_positive(text: &[u8]) -> Option<&[u8]>
    ensures found { IfSome result (λ rest. StartsWith IsPositiveOf text.now rest.now) }
    ensures shorter { IfSome result (λ rest. length rest.now < length text.now) }
    ensures none { IfNone result (EndsWithIt IsPositiveOf text.now) }
{
    match split_word(text) {
        (word, Some(rest)) if is_positive(word) => Some(rest),
        _ => None,
    }
}

fn is_count(word: &[u8]) -> bool
    ensures { IsTrue result ↔ SpellsSome IsCountOf word.now }
{
    match number(word) {
        Some(n) => 0 <= n,
        None => false,
    }
}

fn is_positive(word: &[u8]) -> bool
    ensures { IsTrue result ↔ SpellsSome IsPositiveOf word.now }
{
    match number(word) {
        Some(n) => 1 <= n,
        None => false,
    }
}

fn is_nonzero(word: &[u8]) -> bool
    ensures { IsTrue result ↔ SpellsSome IsNonzeroOf word.now }
{
    match number(word) {
        Some(n) => n != 0,
        None => false,
    }
}

fn is_number(word: &[u8]) -> bool
    ensures { IsTrue result ↔ SpellsSome IsAnyOf word.now }
{
    match number(word) {
        Some(_) => true,
        None => false,
    }
}
