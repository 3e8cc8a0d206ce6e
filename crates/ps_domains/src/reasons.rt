//! Reasons against a token.
ghost use Rattle.std.specs.Prelude.{◌≡◌};
ghost use Rattle.ps_lex.specs.KeptTokens.{token_of};
ghost use Rattle.ps_domains.specs.DomainTokens.{letters_of, or_else, read_reason, unless};
ghost use Rattle.ps_domains.specs.DomainTokens.{unexpected, sign_refusal};

use crate::kind::GroundKind;
use crate::words::is_too_long;
use ps_lex::Token;
use ps_text::{ReadKind, What};

/// The letters of a word; none of another token.
pub(crate) fn letters(token: &Token) -> &[u8]
    ensures { result.now ≡ letters_of (token_of token.now) }
{
    match token {
        Token::Word(letters) => letters.as_slice(),
        _ => b"".as_slice(),
    }
}

/// A reason of version 2.
pub(crate) fn read(kind: Option<ReadKind>) -> Option<GroundKind>
    ensures { result ≡ read_reason kind }
{
    match kind {
        Some(kind) => Some(GroundKind::Read(kind)),
        None => None,
    }
}

/// The first reason, or else the second.
pub(crate) fn or_else(first: Option<GroundKind>, second: Option<GroundKind>) -> Option<GroundKind>
    ensures { result ≡ or_else first second }
{
    match first {
        Some(kind) => Some(kind),
        None => second,
    }
}

/// This reason where a test fails.
pub(crate) fn unless(test: bool, kind: GroundKind) -> Option<GroundKind>
    ensures { result ≡ unless test kind }
{
    if test { None } else { Some(kind) }
}

/// A word that is too long, or a token that isn't expected.
pub(crate) fn unless_expected(
    is_expected: bool,
    kind: GroundKind,
    token: &Token,
) -> Option<GroundKind>
    ensures { result ≡ unexpected is_expected kind (token_of token.now) }
{
    if is_too_long(token) {
        Some(GroundKind::Read(ReadKind::NameTooLong))
    } else {
        unless(is_expected, kind)
    }
}

/// A symbol that version 2 has too isn't there.
pub(crate) fn unless_sign(is_expected: bool, what: What, token: &Token) -> Option<GroundKind>
    ensures { result ≡ sign_refusal is_expected what (token_of token.now) }
{
    unless_expected(
        is_expected,
        GroundKind::Read(ReadKind::Expected(what)),
        token,
    )
}
