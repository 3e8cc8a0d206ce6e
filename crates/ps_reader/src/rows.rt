//! The multipliers of a line.
ghost use Rattle.ps_reader.specs.Cursor.{words_in};
ghost use Rattle.ps_reader.specs.Rows.{IsNumbered, TellsNumber, TellsNumbers, AreRowsRead};

use crate::kinds::number;
use crate::line_fault::LineFault;
use crate::words::Words;
use ps_answer::{MOST_MULTIPLIERS, Multipliers};
use ps_io::List;
use std::alloc::Global;

/// The numbers of all words that are left: at most 100, each up to 2^90 in size.
pub(crate) fn rows(alloc: Global, words: &Words<'_>) -> Result<Multipliers, LineFault>
    ensures { AreRowsRead (words_in words.now) result }
{
    are_numbers(words)?;
    small_rows(alloc, words)
}

// That each word that is left spells a number, of any size.
fn are_numbers(words: &Words<'_>) -> Result<(), LineFault>
    ensures { TellsNumbers (words_in words.now) result }
{
    let mut left = *words;
    while !left.is_empty() {
        is_number(left.next())?;
    }
    Ok(())
}

fn is_number(word: &[u8]) -> Result<(), LineFault>
    ensures { TellsNumber word.now result }
{
    match number(word) {
        Ok(_) => Ok(()),
        Err(LineFault::TooLarge) => Ok(()),
        Err(why) => Err(why),
    }
}

fn small_rows(alloc: Global, words: &Words<'_>) -> Result<Multipliers, LineFault>
    requires { IsNumbered (words_in words.now) }
    ensures { AreRowsRead (words_in words.now) result }
{
    let mut rows = List::new(alloc);
    let mut left = *words;
    while !left.is_empty() {
        if MOST_MULTIPLIERS <= rows.len() {
            return Err(LineFault::TooLarge);
        }
        rows.push(number(left.next())?)?;
    }
    Ok(rows)
}
