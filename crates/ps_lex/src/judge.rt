//! Tests of tokens.
ghost use Rattle.std.specs.Prelude.{◌≡◌, bytes_eq};
ghost use Rattle.ps_meaning.specs.Names.{is_reserved as reserved};
ghost use Rattle.ps_text.specs.Tokens.{is_the_word, is_the_sign};
ghost use Rattle.ps_text.specs.ExpectedTokens.{is_number, is_operand_word, begins_operand};
ghost use Rattle.ps_text.specs.Grammar.{has_linear};
ghost use Rattle.ps_text.specs.ExpectedTokens.{is_connective, is_too_long, is_term_sign};
ghost use Rattle.ps_text.specs.ExpectedTokens.{begins_signed, is_foreign, version_of};
ghost use Rattle.ps_text.specs.ExpectedTokens.{version_fault, value_fault, number_fault};
ghost use Rattle.ps_text.specs.Tokens as text;
ghost use Rattle.ps_lex.specs.KeptTokens.{digits_of, decimal_of, numeral_of, token_of};

use crate::digits::Digits;
use crate::token::{Numeral, Token};
use ps_text::{GREATEST_DENOMINATOR, LONGEST_WORD, MOST_DECIMALS, ReadKind, Symbol, Version};

fn same(letters: &[u8], word: &[u8]) -> bool
    ensures { result ≡ bytes_eq letters.now word.now }
{
    letters == word
}

/// Whether a token is this word.
pub(crate) fn is_word(token: &Token, word: &[u8]) -> bool
    ensures { result ≡ is_the_word word.now (token_of token.now) }
{
    match token {
        Token::Word(letters) => same(letters.as_slice(), word),
        _ => false,
    }
}

/// Whether a token is this symbol.
pub(crate) fn is_sign(token: &Token, symbol: Symbol) -> bool
    ensures { result ≡ is_the_sign symbol (token_of token.now) }
{
    match token {
        Token::Sign(other) => *other == symbol,
        _ => false,
    }
}

/// Whether a token is a number.
pub(crate) fn is_number(token: &Token) -> bool
    ensures { result ≡ is_number (token_of token.now) }
{
    matches!(token, Token::Number(_))
}

fn is_reserved(letters: &[u8]) -> bool
    ensures { result ≡ reserved letters.now }
{
    same(letters, b"psat")
        || same(letters, b"P")
        || same(letters, b"given")
        || same(letters, b"in")
        || same(letters, b"query")
        || same(letters, b"end")
        || same(letters, b"true")
        || same(letters, b"false")
}

fn is_operand_word(token: &Token) -> bool
    ensures { result ≡ is_operand_word (token_of token.now) }
{
    match token {
        Token::Word(letters) => {
            !is_reserved(letters.as_slice())
                || same(letters.as_slice(), b"true")
                || same(letters.as_slice(), b"false")
        }
        _ => false,
    }
}

/// Whether an operand may begin with a token.
pub(crate) fn begins_operand(token: &Token) -> bool
    ensures { result ≡ begins_operand (token_of token.now) }
{
    is_operand_word(token) || is_sign(token, Symbol::Bang) || is_sign(token, Symbol::Open)
}

/// Whether a token is `&`, `|`, `->` or `<->`.
pub(crate) fn is_connective(token: &Token) -> bool
    ensures { result ≡ is_connective (token_of token.now) }
{
    is_sign(token, Symbol::Ampersand)
        || is_sign(token, Symbol::Bar)
        || is_sign(token, Symbol::Arrow)
        || is_sign(token, Symbol::DoubleArrow)
}

/// Whether a token is too long a word.
pub(crate) fn is_too_long(token: &Token) -> bool
    ensures { result ≡ is_too_long (token_of token.now) }
{
    match token {
        Token::Word(letters) => letters.as_slice().len() > LONGEST_WORD,
        _ => false,
    }
}

/// Whether a token is `+` or `-`.
pub(crate) fn is_term_sign(token: &Token) -> bool
    ensures { result ≡ is_term_sign (token_of token.now) }
{
    is_sign(token, Symbol::Plus) || is_sign(token, Symbol::Minus)
}

/// Whether a token is a number or a `-`.
pub(crate) fn begins_signed(token: &Token) -> bool
    ensures { result ≡ begins_signed (token_of token.now) }
{
    is_number(token) || is_sign(token, Symbol::Minus)
}

/// Whether `+`, `-` and linear sentences are the version's.
pub(crate) fn has_linear(version: Version) -> bool
    ensures { result ≡ has_linear version }
{
    matches!(version, Version::Two)
}

/// Whether a token is none of the version.
pub(crate) fn is_foreign(version: Version, token: &Token) -> bool
    ensures { result ≡ is_foreign version (token_of token.now) }
{
    match token {
        Token::Sign(Symbol::Plus) | Token::Sign(Symbol::Minus) => !has_linear(version),
        _ => false,
    }
}

/// Why a token isn't a version.
pub(crate) fn version_fault(token: &Token) -> Option<ReadKind>
    ensures { result ≡ version_fault (token_of token.now) }
{
    match token {
        Token::Number(numeral) => numeral_fault(numeral),
        _ => Some(ReadKind::VersionUnknown),
    }
}

#[tactic(auto, using(crate::proofs::Figures::decimal_version))]
fn numeral_fault(numeral: &Numeral) -> Option<ReadKind>
    ensures { result ≡ version_fault (text.Number (numeral_of numeral.now)) }
{
    match numeral {
        Numeral::Whole(digits) => digits_fault(*digits),
        Numeral::Quotient { .. } | Numeral::Decimal { .. } => Some(ReadKind::VersionUnknown),
    }
}

#[tactic(auto, using(crate::proofs::Figures::version_of))]
fn digits_fault(digits: Digits) -> Option<ReadKind>
    ensures { result ≡ version_fault (text.Number (text.Whole (digits_of digits))) }
{
    if digits.count == 1 && (digits.value == 1 || digits.value == 2) {
        None
    } else {
        Some(ReadKind::VersionUnknown)
    }
}

/// The version that a token spells.
pub(crate) fn version_of(token: &Token) -> Version
    ensures { result ≡ version_of (token_of token.now) }
{
    match token {
        Token::Number(numeral) => numeral_version(numeral),
        _ => Version::One,
    }
}

#[tactic(auto, using(crate::proofs::Figures::decimal_is))]
fn numeral_version(numeral: &Numeral) -> Version
    ensures { result ≡ version_of (text.Number (numeral_of numeral.now)) }
{
    match numeral {
        Numeral::Whole(digits) => digits_version(*digits),
        Numeral::Quotient { .. } | Numeral::Decimal { .. } => Version::One,
    }
}

#[tactic(auto, using(crate::proofs::Figures::version_is))]
fn digits_version(digits: Digits) -> Version
    ensures { result ≡ version_of (text.Number (text.Whole (digits_of digits))) }
{
    if digits.count == 1 && digits.value == 2 {
        Version::Two
    } else {
        Version::One
    }
}

/// Why a number isn't one of at most this value.
fn value_fault(greatest: u32, numeral: &Numeral) -> Option<ReadKind>
    ensures { result ≡ value_fault greatest (numeral_of numeral.now) }
{
    match numeral {
        Numeral::Whole(digits) => whole_fault(greatest, *digits),
        Numeral::Quotient { over, under } => quotient_fault(greatest, *over, *under),
        Numeral::Decimal { all, decimals } => decimal_fault(greatest, all.value, *decimals),
    }
}

#[tactic(auto, using(crate::proofs::Figures::whole_fault))]
fn whole_fault(greatest: u32, digits: Digits) -> Option<ReadKind>
    ensures { result ≡ value_fault greatest (text.Whole (digits_of digits)) }
{
    if digits.value > u64::from(greatest) {
        Some(ReadKind::NumberOutOfRange)
    } else {
        None
    }
}

#[tactic(auto, using(crate::proofs::Figures::quotient_fault))]
fn quotient_fault(greatest: u32, over: Digits, under: Digits) -> Option<ReadKind>
    ensures { result ≡ value_fault greatest (text.Quotient (digits_of over) (digits_of under)) }
{
    if under.value == 0 {
        Some(ReadKind::ZeroDenominator)
    } else if under.value > u64::from(GREATEST_DENOMINATOR) {
        Some(ReadKind::DenominatorTooLarge)
    } else if over.value > u64::from(greatest) * under.value {
        Some(ReadKind::NumberOutOfRange)
    } else {
        None
    }
}

#[tactic(auto, using(crate::proofs::Figures::decimal_fault))]
fn decimal_fault(greatest: u32, value: u64, decimals: u8) -> Option<ReadKind>
    ensures { result ≡ value_fault greatest (decimal_of decimals value) }
{
    if decimals > MOST_DECIMALS {
        Some(ReadKind::TooManyDecimals)
    } else if value > u64::from(greatest) * 10_u64.pow(u32::from(decimals)) {
        Some(ReadKind::NumberOutOfRange)
    } else {
        None
    }
}

/// Why a token that is a number isn't one of at most this value.
pub(crate) fn number_fault(greatest: u32, token: &Token) -> Option<ReadKind>
    ensures { result ≡ number_fault greatest (token_of token.now) }
{
    match token {
        Token::Number(numeral) => value_fault(greatest, numeral),
        _ => None,
    }
}
