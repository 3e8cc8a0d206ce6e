//! A word.
ghost use Rattle.std.specs.Prelude.{◌≡◌, ◌≤◌, [], length};
ghost use Rattle.ps_lex.specs.declared.word.TheConstants.{KEPT_LETTERS};
ghost use Rattle.ps_lex.specs.Lexing.{letter_kept};
ghost use Rattle.ps_lex.specs.Passing.{TakesLetters, EndsLetters};

use crate::bytes::is_word_byte;
use ps_text::LONGEST_WORD;
use std::marker::Model;

/// How many bytes of a word are kept: one more than a word may have.
pub const KEPT_LETTERS: usize = LONGEST_WORD + 1;

/// The first bytes of a word, as many as tell whether it is too long. They lie in place, so a word
/// takes no memory.
#[derive(Debug, Drop)]
pub struct Word {
    bytes: [u8; KEPT_LETTERS],
    len: usize,
}

impl Model for Word {
    ghost use Rattle.std.specs.Prelude.{ℕ, List, ◌≤◌, take};
    ghost use Rattle.ps_lex.specs.declared.word.TheConstants.{KEPT_LETTERS};

    ghost Value = { List ℕ };

    ghost view = { λ w. take w.len w.bytes };

    ghost invariant = { λ w. w.len ≤ KEPT_LETTERS };
}

impl Word {
    /// A word of no byte yet.
    pub(crate) fn empty() -> Word
        ensures { result ≡ [] }
    {
        Word {
            bytes: [0; KEPT_LETTERS],
            len: 0,
        }
    }

    /// Takes one more byte, which is kept where there is room.
    pub(crate) fn push(&mut self, byte: u8)
        ensures { self.new ≡ letter_kept self.old byte }
    {
        let len = self.len;
        if len < KEPT_LETTERS {
            self.bytes[len] = byte;
            self.len = len + 1;
        }
    }

    /// Takes the bytes of words at the front of some bytes, and gives the bytes that are left.
    pub(crate) fn take<'a>(&mut self, bytes: &'a [u8]) -> &'a [u8]
        ensures letters { TakesLetters self.old bytes.now self.new result.now }
        ensures all { EndsLetters result.now }
        ensures shorter { length result.now ≤ length bytes.now }
    {
        let mut left = bytes;
        while let [byte, more @ ..] = left {
            if !is_word_byte(*byte) {
                return left;
            }
            self.push(*byte);
            left = more;
        }
        left
    }

    /// The bytes that are kept.
    pub fn as_slice(&self) -> &[u8]
        ensures value { result.now ≡ self.now }
        ensures kept { length result.now ≤ KEPT_LETTERS }
    {
        &self.bytes[..self.len]
    }
}
