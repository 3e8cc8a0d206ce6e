//! A problem's text, byte by byte.
ghost use Rattle.std.specs.Prelude.{◌≡◌, ◌<◌, ◌≤◌, ◌+◌, ◌-◌, ◌^◌, OnOk, length};
ghost use Rattle.ps_lex.specs.Lexing.{new_lexer};
ghost use Rattle.ps_lex.specs.Passing.{Passes};
ghost use Rattle.ps_problem.specs.declared.limits.TheConstants.{MOST_DRAFTED};
ghost use Rattle.ps_read.specs.Derivations.{IsParsed};
ghost use Rattle.ps_read.specs.Kept.{machine_of};
ghost use Rattle.ps_read.specs.Taking.{CountsAtMost, IsOneMore};
ghost use Rattle.ps_read.specs.Answers.{nothing_parsed, parsed_by, begun_behind, is_done};
ghost use Rattle.ps_read.specs.Answers.{part_of, ended, AgreesAtEnd, IsJudged, IsFed, IsFinished};
ghost use Rattle.ps_read.specs.Answers.{BelongsTogether, IsKeptIn, HasPassed};
ghost use Rattle.ps_read.specs.Answers.{GoesOnWithout, IsWaiting, WaitsAt};

use crate::parse_error::ParseError;
use crate::parser::Parser;
use crate::read_error::ReadError;
use ps_lex::{Lexer, Position, Token};
use ps_text::{Part, ReadKind};
use std::alloc::Global;

/// Reads a problem's text that it is fed byte by byte.
#[derive(Drop)]
pub struct Reader {
    /// The lexer, behind the bytes so far.
    pub lexer: Lexer,
    /// The parser, behind the tokens that have ended.
    pub parser: Parser,
}

// Whether the text is whole.
fn is_done(parser: &Parser) -> bool
    ensures { result ≡ is_done (part_of (parsed_by parser.now)) }
{
    matches!(parser.part(), Part::Done)
}

// At the end of the bytes, or where no token begins: where the text ended, or the refusal.
fn end(parser: &Parser, kind: ReadKind, place: Position) -> Result<Position, ReadError>
    ensures { AgreesAtEnd (ended (parsed_by parser.now) kind place) (parsed_by parser.now) result }
{
    if is_done(parser) {
        return Ok(place);
    }
    Err(ReadError::at(kind, place))
}

// Takes a token that ended, and stops where none begins.
#[inline(always)]
fn judge(
    parser: &mut Parser,
    token: Option<Token>,
    began: Position,
    bad: Option<Position>,
) -> Result<Option<Position>, ReadError>
    requires derivation { IsParsed (machine_of parser.old) }
    requires word { IsKeptIn token }
    requires room { CountsAtMost (MOST_DRAFTED - 1) (machine_of parser.old) }
    ensures judged { IsJudged token began bad parser.old parser.new result }
    ensures derivation { OnOk result (IsParsed (machine_of parser.new)) }
    ensures counts { OnOk result (IsOneMore parser.old parser.new) }
    ensures goes_on { GoesOnWithout bad result }
{
    if let Some(token) = token {
        if is_done(parser) {
            return Ok(Some(began));
        }
        match parser.take(&token, began) {
            Ok(()) => {}
            Err(ParseError::Refused(kind)) => return Err(ReadError::at(kind, began)),
            Err(ParseError::NoMemory) => return Err(ReadError::NoMemory),
        }
    }
    let Some(place) = bad else {
        return Ok(None);
    };
    Ok(Some(end(parser, ReadKind::BadByte, place)?))
}

impl Reader {
    /// Before the first byte.
    pub fn new(alloc: Global) -> Reader
        ensures lexer { result.lexer ≡ new_lexer }
        ensures parser { parsed_by result.parser ≡ nothing_parsed }
        ensures waits { IsWaiting result }
    {
        Reader {
            lexer: Lexer::new(),
            parser: Parser::new(alloc),
        }
    }

    /// Whether the text is whole.
    pub fn is_done(&self) -> bool
        ensures { result ≡ is_done (part_of (parsed_by self.now.parser)) }
    {
        is_done(&self.parser)
    }

    // Where the token begins that stands behind a whole text, if one has begun.
    fn begun_behind(&self) -> Option<Position>
        ensures { result ≡ begun_behind (parsed_by self.now.parser) self.now.lexer }
    {
        if is_done(&self.parser) && self.lexer.is_within_token() {
            Some(self.lexer.began())
        } else {
            None
        }
    }

    /// Takes one more byte. Answers where the text and the blanks behind it ended, if that is known
    /// then, or the first refusal.
    pub fn feed(&mut self, byte: u8) -> Result<Option<Position>, ReadError>
        requires together { BelongsTogether self.old }
        requires room { self.old.lexer.here.offset + 2 < 2 ^ 32 }
        ensures fed { IsFed byte self.old self.new result }
        ensures together { OnOk result (BelongsTogether self.new) }
        ensures waits { WaitsAt self.new result }
        ensures taken { self.new.lexer.here.offset ≡ self.old.lexer.here.offset + 1 }
    {
        let began = self.lexer.began();
        let token = self.lexer.take(byte);
        if let Some(place) = judge(&mut self.parser, token, began, self.lexer.bad())? {
            return Ok(Some(place));
        }
        Ok(self.begun_behind())
    }

    /// Passes the bytes at the front of some that tell nothing, blanks and comments or the rest of
    /// a word, and gives the bytes that are left.
    pub fn pass<'a>(&mut self, bytes: &'a [u8]) -> &'a [u8]
        requires together { BelongsTogether self.old }
        requires room { self.old.lexer.here.offset + length bytes.now + 1 < 2 ^ 32 }
        ensures passed { HasPassed bytes.now self.old result.now self.new }
        ensures passes { Passes self.old.lexer bytes.now self.new.lexer result.now }
        ensures parser { self.new.parser ≡ self.old.parser }
        ensures together { BelongsTogether self.new }
        ensures shorter { length result.now ≤ length bytes.now }
    {
        self.lexer.pass(bytes)
    }

    /// At the end of the bytes: the parser, and where the text and the blanks behind it ended.
    pub fn finish(self) -> Result<(Parser, Position), ReadError>
        requires together { BelongsTogether self }
        requires room { self.lexer.here.offset + 1 < 2 ^ 32 }
        ensures { IsFinished self result }
    {
        let Reader { lexer, mut parser } = self;
        let began = lexer.began();
        let here = lexer.here();
        let bad = lexer.last_bad();
        if let Some(place) = judge(&mut parser, lexer.finish(), began, bad)? {
            return Ok((parser, place));
        }
        let place = end(&parser, ReadKind::EndMissing, here)?;
        Ok((parser, place))
    }

    /// The parser, once the text's end is known.
    pub fn into_parser(self) -> Parser
        ensures { result ≡ self.parser }
    {
        self.parser
    }
}
