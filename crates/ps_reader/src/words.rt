//! Words between spaces.
ghost use Rattle.std.specs.Prelude.{◌≡◌, ◌↔◌, [], IsTrue, bytes_eq, ⊤};
ghost use Rattle.ps_log.specs.Spellings.{words_of};
ghost use Rattle.ps_answer.specs.Faults.{first_of};
ghost use Rattle.ps_reader.specs.Cursor.{words_in, later};
ghost use Rattle.ps_reader.specs.Read.{AreWordsRead};

use crate::line_fault::LineFault;
use ps_log::split_word;

/// The words of a line that are still to be read.
#[derive(Clone, Copy, Debug, Drop)]
pub struct Words<'l> {
    rest: Option<&'l [u8]>,
}

impl<'l> Words<'l> {
    /// All words of a line.
    pub fn of(line: &'l [u8]) -> Words<'l>
        ensures { words_in result ≡ words_of line.now }
    {
        Words { rest: Some(line) }
    }

    /// The next word; without bytes where none is left.
    pub fn next(&mut self) -> &'l [u8]
        ensures word { result.now ≡ first_of (words_in self.old) }
        ensures later { words_in self.new ≡ later (words_in self.old) }
    {
        match self.rest {
            Some(text) => {
                let (word, after) = split_word(text);
                self.rest = after;
                word
            }
            None => &[],
        }
    }

    /// Whether no word is left.
    pub fn is_empty(&self) -> bool
        ensures { IsTrue result ↔ (words_in self.now ≡ []) }
    {
        match self.rest {
            None => true,
            Some(_) => false,
        }
    }

    /// That no word is left.
    pub fn end(&self) -> Result<(), LineFault>
        ensures { AreWordsRead (λ u. []) (λ u. ⊤) (λ u. ⊤) (words_in self.now) result }
    {
        match self.rest {
            None => Ok(()),
            Some(_) => Err(LineFault::NotCanonical),
        }
    }
}

/// Whether a word is this text.
pub(crate) fn is(word: &[u8], text: &[u8]) -> bool
    ensures equal { IsTrue result ↔ (word.now ≡ text.now) }
    ensures tested { result ≡ bytes_eq word.now text.now }
{
    word == text
}
