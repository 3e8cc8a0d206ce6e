//! The tokens of some bytes.
ghost use Rattle.std.specs.Prelude.{◌≡◌, ◌<◌, ◌+◌, ◌^◌, ◌++◌, length, map, IfOk, OnOk};
ghost use Rattle.ps_lex.specs.Lexing.{with_place};
ghost use Rattle.ps_domains.specs.Lexed.{pair_of, IsLexed};

use ps_io::{List, NoMemory};
use ps_lex::{Lexer, Position, Token};
use std::alloc::Global;

/// A token, and where it begins.
#[derive(Debug, Drop)]
pub struct PlacedToken {
    /// The token.
    pub token: Token,
    /// Where it begins.
    pub place: Position,
}

/// The tokens of some bytes, up to a place where none begins, if there is one, and the place behind
/// the bytes that were taken.
#[derive(Debug, Drop)]
pub struct LexedText {
    /// The tokens in order.
    pub tokens: List<PlacedToken>,
    /// Where no token begins.
    pub bad: Option<Position>,
    /// Behind the bytes.
    pub end: Position,
}

// Puts a token behind those before it, if one ended.
fn push(
    tokens: &mut List<PlacedToken>,
    token: Option<Token>,
    place: Position,
) -> Result<(), NoMemory>
    ensures { OnOk result
        (map pair_of tokens.new ≡ map pair_of tokens.old ++ with_place token place) }
{
    match token {
        Some(token) => tokens.push(PlacedToken { token, place }),
        None => Ok(()),
    }
}

/// The tokens of some bytes, each with where it begins.
pub fn lex(alloc: Global, bytes: &[u8]) -> Result<LexedText, NoMemory>
    requires room { length bytes.now + 1 < 2 ^ 32 }
    ensures { IfOk result (IsLexed bytes.now) }
{
    let mut tokens = List::new(alloc);
    let mut lexer = Lexer::new();
    let mut left = bytes;
    while let [byte, more @ ..] = left {
        let began = lexer.began();
        let token = lexer.take(*byte);
        push(&mut tokens, token, began)?;
        if let Some(place) = lexer.bad() {
            return Ok(LexedText {
                tokens,
                bad: Some(place),
                end: place,
            });
        }
        left = lexer.pass(more);
    }
    let began = lexer.began();
    let end = lexer.here();
    let bad = lexer.last_bad();
    push(&mut tokens, lexer.finish(), began)?;
    Ok(LexedText { tokens, bad, end })
}
