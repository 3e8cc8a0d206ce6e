//! Words between spaces.
ghost use Rattle.std.specs.Prelude.{◌≡◌, ◌≤◌, ◌∷◌, IfOk, IfSome, IfNone, length, option_copied};
ghost use Rattle.ps_log.specs.Spellings.{words_of};
ghost use Rattle.ps_log.specs.FirstLines.{FirstLine, IsOneLine};
ghost use Rattle.ps_log.specs.Numbers.{AreRead, Lacks, IsCut, words_after, left_of};

use crate::limits::MOST_NUMBERS;
use crate::numeral::number;
use crate::room::list_with_room;
use ps_io::{List, NoMemory};
use std::alloc::Global;

/// The numbers that the words of a text spell. `None` where a word spells none.
pub(crate) fn numbers(alloc: Global, text: &[u8]) -> Result<Option<List<i128>>, NoMemory>
    ensures { IfOk result (AreRead text.now) }
{
    let mut numbers = list_with_room(alloc, (text.len() / 4).min(MOST_NUMBERS))?;
    let mut rest = Some(text);
    while let Some(bytes) = rest {
        let (word, after) = split_word(bytes);
        match number(word) {
            Some(n) => numbers.push(n)?,
            None => return Ok(None),
        }
        rest = after;
    }
    Ok(Some(numbers))
}

/// The bytes before the first space, and those after it if there is one.
pub fn split_word(text: &[u8]) -> (&[u8], Option<&[u8]>)
    ensures words { words_of text.now ≡ result.0.now ∷ words_after (option_copied result.1) }
    ensures shorter { left_of (option_copied result.1) ≤ length text.now }
{
    match split_once(text, b' ') {
        Some((word, after)) => (word, Some(after)),
        None => (text, None),
    }
}

/// The bytes before the first separator, and those after it.
pub fn split_once(bytes: &[u8], separator: u8) -> Option<(&[u8], &[u8])>
    ensures found { IfSome result (λ r. IsCut bytes.now separator r.0.now r.1.now) }
    ensures none { IfNone result (Lacks separator bytes.now) }
{
    let i = bytes.iter().position(|b| *b == separator)?;
    Some((&bytes[..i], &bytes[i + 1..]))
}

/// The bytes before the first line feed.
pub(crate) fn first_line(bytes: &[u8]) -> Option<&[u8]>
    ensures found { IfSome result (λ line. FirstLine bytes.now line.now) }
    ensures none { IfNone result (IsOneLine bytes.now) }
{
    let (line, _) = split_once(bytes, b'\n')?;
    Some(line)
}
