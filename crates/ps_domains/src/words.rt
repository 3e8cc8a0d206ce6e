//! Words of a text over listed constants.
ghost use Rattle.std.specs.Prelude.{◌≡◌, ◌==◌, bytes_eq};
ghost use Rattle.ps_meaning.specs.Names.{is_reserved as reserved_before};
ghost use Rattle.ps_text.specs.Tokens.{is_the_word, is_the_sign};
ghost use Rattle.ps_text.specs.ExpectedTokens.{is_too_long, is_number};
ghost use Rattle.ps_lex.specs.KeptTokens.{token_of, numeral_of, digits_of};
ghost use Rattle.ps_text.specs.Tokens as text;
ghost use Rattle.ps_first_order.specs.declared.limits.TheConstants.{UNDERSCORE};
ghost use Rattle.ps_domains.specs.DomainWords.{is_quantifier, is_declaring, is_reserved};
ghost use Rattle.ps_domains.specs.DomainWords.{is_name, has_underscore, is_three, arity_of};

use ps_first_order::UNDERSCORE;
use ps_lex::{Digits, Numeral, Token};
use ps_text::{LONGEST_WORD, Symbol};

fn same(letters: &[u8], word: &[u8]) -> bool
    ensures { result ≡ bytes_eq letters.now word.now }
{
    letters == word
}

/// Whether a token is this word.
pub(crate) fn is_word(token: &Token, word: &[u8]) -> bool
    ensures { result ≡ is_the_word word.now (token_of token.now) }
{
    match token {
        Token::Word(letters) => same(letters.as_slice(), word),
        _ => false,
    }
}

/// Whether a token is this symbol.
pub(crate) fn is_sign(token: &Token, symbol: Symbol) -> bool
    ensures { result ≡ is_the_sign symbol (token_of token.now) }
{
    match token {
        Token::Sign(other) => *other == symbol,
        _ => false,
    }
}

/// Whether a token is a number.
pub(crate) fn is_number(token: &Token) -> bool
    ensures { result ≡ is_number (token_of token.now) }
{
    matches!(token, Token::Number(_))
}

/// Whether a token is too long a word.
pub(crate) fn is_too_long(token: &Token) -> bool
    ensures { result ≡ is_too_long (token_of token.now) }
{
    match token {
        Token::Word(letters) => letters.as_slice().len() > LONGEST_WORD,
        _ => false,
    }
}

/// Whether a token is `forall` or `exists`.
pub(crate) fn is_quantifier(token: &Token) -> bool
    ensures { result ≡ is_quantifier (token_of token.now) }
{
    is_word(token, b"forall") || is_word(token, b"exists")
}

/// Whether a token is `const` or `pred`.
pub(crate) fn is_declaring(token: &Token) -> bool
    ensures { result ≡ is_declaring (token_of token.now) }
{
    is_word(token, b"const") || is_word(token, b"pred")
}

fn is_reserved_before(letters: &[u8]) -> bool
    ensures { result ≡ reserved_before letters.now }
{
    same(letters, b"psat")
        || same(letters, b"P")
        || same(letters, b"given")
        || same(letters, b"in")
        || same(letters, b"query")
        || same(letters, b"end")
        || same(letters, b"true")
        || same(letters, b"false")
}

fn is_reserved(letters: &[u8]) -> bool
    ensures { result ≡ is_reserved letters.now }
{
    is_reserved_before(letters)
        || same(letters, b"const")
        || same(letters, b"pred")
        || same(letters, b"forall")
        || same(letters, b"exists")
}

/// Whether a token is a name.
pub(crate) fn is_name(token: &Token) -> bool
    ensures { result ≡ is_name (token_of token.now) }
{
    match token {
        Token::Word(letters) => !is_reserved(letters.as_slice()),
        _ => false,
    }
}

fn is_underscore(byte: &u8) -> bool
    ensures { result ≡ (byte.now == UNDERSCORE) }
{
    *byte == UNDERSCORE
}

/// Whether a `_` is among some letters.
pub(crate) fn has_underscore(letters: &[u8]) -> bool
    ensures { result ≡ has_underscore letters.now }
{
    letters.iter().any(|byte| is_underscore(byte))
}

// Whether digits are the one digit `3`.
#[tactic(auto, using(crate::proofs::Digits::whole_three))]
fn is_digit_three(digits: Digits) -> bool
    ensures { result ≡ is_three (text.Number (text.Whole (digits_of digits))) }
{
    digits.count == 1 && digits.value == 3
}

#[tactic(auto, using(crate::proofs::Digits::decimal_three))]
fn is_numeral_three(numeral: &Numeral) -> bool
    ensures { result ≡ is_three (text.Number (numeral_of numeral.now)) }
{
    match numeral {
        Numeral::Whole(digits) => is_digit_three(*digits),
        Numeral::Quotient { .. } | Numeral::Decimal { .. } => false,
    }
}

/// Whether a token is the number that is spelled `3`.
pub(crate) fn is_three(token: &Token) -> bool
    ensures { result ≡ is_three (token_of token.now) }
{
    match token {
        Token::Number(numeral) => is_numeral_three(numeral),
        _ => false,
    }
}

// The arity that digits spell, if they are one digit from 0 to 3.
#[tactic(auto, using(crate::proofs::Digits::whole_arity))]
fn arity_of_digits(digits: Digits) -> Option<u8>
    ensures { result ≡ arity_of (text.Number (text.Whole (digits_of digits))) }
{
    if digits.count == 1 && digits.value <= 3 {
        Some(digits.value as u8)
    } else {
        None
    }
}

#[tactic(auto, using(crate::proofs::Digits::decimal_arity))]
fn arity_of_numeral(numeral: &Numeral) -> Option<u8>
    ensures { result ≡ arity_of (text.Number (numeral_of numeral.now)) }
{
    match numeral {
        Numeral::Whole(digits) => arity_of_digits(*digits),
        Numeral::Quotient { .. } | Numeral::Decimal { .. } => None,
    }
}

/// The arity that a token spells by one digit, if it is one.
pub(crate) fn arity_of(token: &Token) -> Option<u8>
    ensures { result ≡ arity_of (token_of token.now) }
{
    match token {
        Token::Number(numeral) => arity_of_numeral(numeral),
        _ => None,
    }
}
