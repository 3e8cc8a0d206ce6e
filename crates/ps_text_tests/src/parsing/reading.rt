//! Feeds the tokens of a text to a `Parser`.
ghost use Rattle.std.specs.Prelude.{◌≡◌, ◌-◌, IsTrue, OnOk};
ghost use Rattle.std.specs.List.{list_all};
ghost use Rattle.ps_meaning.specs.Names.{is_letter as letter, is_word_byte as word_byte};
ghost use Rattle.ps_meaning.specs.Names.{is_word as word};
ghost use Rattle.ps_problem.specs.declared.limits.TheConstants.{MOST_DRAFTED};
ghost use Rattle.ps_read.specs.Derivations.{IsParsed};
ghost use Rattle.ps_read.specs.Taking.{IsKept, CountsAtMost, IsOneMore};
ghost use Rattle.ps_read.specs.Kept.{machine_of};

use crate::room::has_room;
use ps_lex::{Lexer, Position, Token};
use ps_read::{ParseError, Parser};
use std::alloc::Global;

fn is_letter(byte: u8) -> bool
    ensures { result ≡ letter byte }
{
    byte.is_ascii_alphabetic()
}

fn is_word_byte(byte: &u8) -> bool
    ensures { result ≡ word_byte byte.now }
{
    is_letter(*byte) || byte.is_ascii_digit() || *byte == b'_'
}

fn are_word_bytes(bytes: &[u8]) -> bool
    ensures { result ≡ list_all word_byte bytes.now }
{
    bytes.iter().all(|byte| is_word_byte(byte))
}

fn is_word(letters: &[u8]) -> bool
    ensures { result ≡ word letters.now }
{
    match letters {
        [first, rest @ ..] => is_letter(*first) && are_word_bytes(rest),
        [] => false,
    }
}

fn is_kept(token: &Token) -> bool
    ensures { IsTrue result → IsKept token.now }
{
    match token {
        Token::Word(letters) => is_word(letters.as_slice()),
        _ => true,
    }
}

// Takes a token, if there is one.
#[tactic(auto, using(ps_read::proofs::Counting::counts_more))]
fn feed(parser: &mut Parser, token: Option<Token>, place: Position) -> Result<(), ParseError>
    requires derivation { IsParsed (machine_of parser.old) }
    requires room { CountsAtMost (MOST_DRAFTED - 1) (machine_of parser.old) }
    ensures derivation { OnOk result (IsParsed (machine_of parser.new)) }
    ensures counts { OnOk result (IsOneMore parser.old parser.new) }
{
    let Some(token) = token else {
        return Ok(());
    };
    if !is_kept(&token) {
        return Err(ParseError::NoMemory);
    }
    parser.take(&token, place)
}

// Takes all tokens of a short text.
fn feed_all(parser: &mut Parser, text: &[u8]) -> Result<(), ParseError>
    requires derivation { IsParsed (machine_of parser.old) }
    requires none { CountsAtMost 0 (machine_of parser.old) }
{
    let mut lexer = Lexer::new();
    if text.len() > 1000 {
        return Err(ParseError::NoMemory);
    }
    for k in 0..text.len() {
        if !has_room(&lexer) {
            return Err(ParseError::NoMemory);
        }
        let began = lexer.began();
        let token = lexer.take(text[k]);
        feed(parser, token, began)?;
    }
    let began = lexer.began();
    feed(parser, lexer.finish(), began)
}

/// The parser behind all tokens of a short text, or why one of them is refused.
#[tactic(auto, using(ps_read::proofs::Taken::first_parsed, ps_read::proofs::Counting::first_counts))]
pub(crate) fn parsed(alloc: Global, text: &[u8]) -> Result<Parser, ParseError> {
    let mut parser = Parser::new(alloc);
    feed_all(&mut parser, text)?;
    Ok(parser)
}
