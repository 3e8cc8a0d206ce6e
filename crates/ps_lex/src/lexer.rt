//! Cuts bytes into tokens.
ghost use Rattle.std.specs.Prelude.{◌≡◌, length};
ghost use Rattle.ps_lex.specs.Places.{HasRoom};
ghost use Rattle.ps_lex.specs.Lexing.{new_lexer, token_ended, with_byte, last_token};
ghost use Rattle.ps_lex.specs.Lexing.{last_bad, bad_place, is_within_token, with_begun};
ghost use Rattle.ps_lex.specs.Passing.{Passes, AllPassed};

use crate::bytes::is_word_byte;
use crate::gap::Gap;
use crate::mode::Mode;
use crate::step::Step;
use crate::stepping::{begin, step};
use crate::{Position, Token};
use std::marker::Model;

/// Takes bytes, one after the other, and tells each token once the byte behind it, or the end,
/// shows that it is whole. Before each byte `began` tells where a token that ends there began. At
/// the end `finish` tells the last token. Once `bad` tells a place, no further token is told.
#[derive(Debug, Drop)]
pub struct Lexer {
    mode: Mode,
    began: Position,
    here: Position,
}

impl Model for Lexer {
    ghost use Rattle.ps_lex.specs.Lexing.{LexerState, IsCappedMode};

    ghost Value = { LexerState };

    ghost view = { λ s. record { mode = s.mode; began = s.began; here = s.here } };

    ghost invariant = { λ s. IsCappedMode s.mode };
}

impl Lexer {
    /// Before the first byte.
    pub fn new() -> Lexer
        ensures { result ≡ new_lexer }
    {
        Lexer {
            mode: Mode::Between,
            began: Position::start(),
            here: Position::start(),
        }
    }

    /// Takes one more byte, and answers the token that ended before it. Lines and columns go up to
    /// 2^32 - 1.
    #[tactic(auto, unfolding(crate::specs::Lexing::token_ended, crate::specs::Lexing::with_byte))]
    pub fn take(&mut self, byte: u8) -> Option<Token>
        requires room { HasRoom 1 self.old.here }
        ensures token { result ≡ token_ended self.old byte }
        ensures state { self.new ≡ with_byte self.old byte }
    {
        match self.mode {
            Mode::Between => {
                self.begin(byte);
                None
            }
            Mode::Sign(symbol) => {
                self.begin(byte);
                Some(Token::Sign(symbol))
            }
            Mode::Word(_) if !is_word_byte(byte) => self.end(byte),
            _ => self.step(byte),
        }
    }

    // What is begun ends before the byte.
    #[inline(always)]
    fn end(&mut self, byte: u8) -> Option<Token>
        requires room { HasRoom 1 self.old.here }
        ensures token { result ≡ last_token self.old.mode }
        ensures state { self.new ≡ with_begun self.old byte }
    {
        let mode = std::mem::replace(&mut self.mode, Mode::Between);
        self.begin(byte);
        mode.last_token()
    }

    // The byte stands outside of tokens, or begins one.
    #[inline(always)]
    fn begin(&mut self, byte: u8)
        requires room { HasRoom 1 self.old.here }
        ensures { self.new ≡ with_begun self.old byte }
    {
        self.mode = begin(self.here, byte);
        self.began = self.here;
        self.here.advance(byte);
    }

    // The byte goes on with what is begun, or ends it.
    #[tactic(auto, unfolding(crate::specs::Lexing::token_ended, crate::specs::Lexing::with_byte))]
    fn step(&mut self, byte: u8) -> Option<Token>
        requires room { HasRoom 1 self.old.here }
        ensures token { result ≡ token_ended self.old byte }
        ensures state { self.new ≡ with_byte self.old byte }
    {
        let mode = std::mem::replace(&mut self.mode, Mode::Between);
        let Step { mode, began, ended } = step(mode, self.began, self.here, byte);
        self.mode = mode;
        self.began = began;
        self.here.advance(byte);
        ended
    }

    /// Passes the bytes at the front of some that go on with what the lexer stands in, and gives
    /// the bytes that are left: the blanks and comments outside of tokens, or the bytes of a word.
    /// It is as if each byte that is passed were taken: no token would be told. Lines and columns
    /// go up to 2^32 - 1.
    pub fn pass<'a>(&mut self, bytes: &'a [u8]) -> &'a [u8]
        requires room { HasRoom (length bytes.now) self.old.here }
        ensures passes { Passes self.old bytes.now self.new result.now }
        ensures all { AllPassed self.new.mode result.now }
    {
        let is_comment = match &mut self.mode {
            Mode::Between => false,
            Mode::Comment => true,
            Mode::Word(letters) => {
                let left = letters.take(bytes);
                self.here = self.here.along((bytes.len() - left.len()) as u32);
                return left;
            }
            _ => return bytes,
        };
        let gap = Gap {
            is_comment,
            began: self.began,
            here: self.here,
        };
        let (gap, left) = gap.pass(bytes);
        self.mode = if gap.is_comment {
            Mode::Comment
        } else {
            Mode::Between
        };
        self.began = gap.began;
        self.here = gap.here;
        left
    }

    /// The token that ends with the bytes, if they end here.
    pub fn finish(self) -> Option<Token>
        ensures { result ≡ last_token self.mode }
    {
        self.mode.last_token()
    }

    /// The place where no token begins, if the bytes end here.
    pub fn last_bad(&self) -> Option<Position>
        ensures { result ≡ last_bad self.now.mode self.now.began }
    {
        match self.mode {
            Mode::Slash { slash, .. } => Some(slash),
            Mode::Point { point, .. } => Some(point),
            Mode::Less | Mode::LessMinus | Mode::Greater => Some(self.began),
            Mode::Bad(place) => Some(place),
            _ => None,
        }
    }

    /// The place where no token begins, if the bytes so far show one.
    pub fn bad(&self) -> Option<Position>
        ensures { result ≡ bad_place self.now.mode }
    {
        match self.mode {
            Mode::Bad(place) => Some(place),
            _ => None,
        }
    }

    /// Where the token began that isn't whole yet.
    pub fn began(&self) -> Position
        ensures { result ≡ self.now.began }
    {
        self.began
    }

    /// Whether a token began that isn't whole yet.
    pub fn is_within_token(&self) -> bool
        ensures { result ≡ is_within_token self.now.mode }
    {
        !matches!(self.mode, Mode::Between | Mode::Comment | Mode::Bad(_))
    }

    /// Where the next byte stands.
    pub fn here(&self) -> Position
        ensures { result ≡ self.now.here }
    {
        self.here
    }
}
