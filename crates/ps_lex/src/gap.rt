//! Blanks and comments.
ghost use Rattle.std.specs.Prelude.{◌≡◌, ◌<◌, ◌≤◌, true, false, IsTrue, length};
ghost use Rattle.ps_lex.specs.Places.{HasRoom};
ghost use Rattle.ps_lex.specs.Lexing.{with_byte};
ghost use Rattle.ps_lex.specs.Passing.{gap_mode, gap_state_of, is_passed, AllPassed};
ghost use Rattle.ps_lex.specs.Passing.{Passes, AreInLine, along_line};

use crate::Position;
use crate::bytes::is_blank;

/// Blanks and comments as they are passed: whether the last byte stands in a comment, and what a
/// lexer keeps.
#[derive(Clone, Copy)]
pub(crate) struct Gap {
    pub is_comment: bool,
    pub began: Position,
    pub here: Position,
}

impl Gap {
    // Whether the byte goes on with blanks and comments.
    #[inline(always)]
    fn has(self, byte: u8) -> bool
        ensures { result ≡ is_passed (gap_mode self.is_comment) byte }
    {
        self.is_comment || is_blank(byte) || byte == b'#'
    }

    // One byte more.
    #[inline(always)]
    #[tactic(auto, unfolding(crate::specs::Lexing::with_byte, crate::specs::Lexing::begun))]
    fn with(self, byte: u8) -> Gap
        requires passed { IsTrue (is_passed (gap_mode self.is_comment) byte) }
        requires room { HasRoom 1 self.here }
        ensures { gap_state_of result ≡ with_byte (gap_state_of self) byte }
    {
        let mut here = self.here;
        here.advance(byte);
        if self.is_comment {
            Gap {
                is_comment: byte != b'\n',
                began: self.began,
                here,
            }
        } else {
            Gap {
                is_comment: byte == b'#',
                began: self.here,
                here,
            }
        }
    }

    // So many bytes more in the line.
    fn along(self, count: u32) -> Gap
        requires some { 0 < count }
        requires room { HasRoom count self.here }
        ensures { gap_state_of result ≡ along_line self.is_comment self.began self.here count }
    {
        Gap {
            is_comment: self.is_comment,
            began: if self.is_comment {
                self.began
            } else {
                self.here.along(count - 1)
            },
            here: self.here.along(count),
        }
    }

    // Passes more bytes of a comment's line, or more spaces.
    fn pass_line(self, bytes: &[u8]) -> (Gap, &[u8])
        requires room { HasRoom (length bytes.now) self.here }
        ensures passes { Passes (gap_state_of self) bytes.now (gap_state_of result.0) result.1.now }
        ensures shorter { length result.1.now ≤ length bytes.now }
    {
        let left = behind_line(self.is_comment, bytes);
        let count = (bytes.len() - left.len()) as u32;
        if count == 0 {
            return (self, bytes);
        }
        (self.along(count), left)
    }

    /// Passes the blanks and comments at the front of some bytes, and gives the bytes that are
    /// left.
    pub(crate) fn pass(self, bytes: &[u8]) -> (Gap, &[u8])
        requires room { HasRoom (length bytes.now) self.here }
        ensures passes { Passes (gap_state_of self) bytes.now (gap_state_of result.0) result.1.now }
        ensures all { AllPassed (gap_mode result.0.is_comment) result.1.now }
    {
        let mut gap = self;
        let mut left = bytes;
        while let [byte, more @ ..] = left {
            if !gap.has(*byte) {
                return (gap, left);
            }
            (gap, left) = gap.with(*byte).pass_line(more);
        }
        (gap, left)
    }
}

// The bytes behind more bytes of a comment's line, or behind spaces.
fn behind_line(is_comment: bool, bytes: &[u8]) -> &[u8]
    ensures line { AreInLine is_comment bytes.now result.now }
    ensures shorter { length result.now ≤ length bytes.now }
{
    if is_comment {
        behind_comment(bytes)
    } else {
        behind_spaces(bytes)
    }
}

// The bytes from the end of a line on.
fn behind_comment(bytes: &[u8]) -> &[u8]
    ensures line { AreInLine true bytes.now result.now }
    ensures shorter { length result.now ≤ length bytes.now }
{
    let mut left = bytes;
    while let [byte, more @ ..] = left {
        if *byte == b'\n' {
            return left;
        }
        left = more;
    }
    left
}

// The bytes behind the spaces at the front.
fn behind_spaces(bytes: &[u8]) -> &[u8]
    ensures line { AreInLine false bytes.now result.now }
    ensures shorter { length result.now ≤ length bytes.now }
{
    let mut left = bytes;
    while let [byte, more @ ..] = left {
        if *byte != b' ' {
            return left;
        }
        left = more;
    }
    left
}
