//! A line with a caret below a place.
ghost use Rattle.std.specs.Prelude.{◌≡◌, ◌++◌, OnOk};
ghost use Rattle.ps_hints.specs.Shown.{blank, blank_below, spaces, EndsLine};

use crate::glyph::{columns, shown_character};
use crate::message::Message;
use crate::spot::Spot;
use ps_io::NoMemory;
use std::alloc::Global;

// The most characters of a line that are shown on each side of the place.
const MOST_BESIDE: usize = 48;

// Adds the characters of a text, as they are shown.
fn extend(characters: &mut Vec<char>, text: &str) -> Result<(), NoMemory> {
    for c in text.chars() {
        characters.push(shown_character(c))?;
    }
    Ok(())
}

// The characters of some bytes, as they are shown.
fn characters_of(alloc: Global, bytes: &[u8]) -> Result<Vec<char>, NoMemory> {
    let mut characters = Vec::new(alloc);
    for chunk in bytes.utf8_chunks() {
        extend(&mut characters, chunk.valid())?;
        if !chunk.invalid().is_empty() {
            characters.push('?')?;
        }
    }
    Ok(characters)
}

// Adds spaces.
fn push_spaces(message: &mut Message, count: usize) -> Result<(), NoMemory>
    ensures { OnOk result (message.new ≡ message.old ++ spaces count) }
{
    for _space in 0..count {
        message.push(' ')?;
    }
    Ok(())
}

// Adds what is as wide as a character: a tab for a tab, and spaces for all else.
#[tactic(auto, unfolding(crate::specs::Shown::blank))]
fn push_blank_below(message: &mut Message, c: char) -> Result<(), NoMemory>
    ensures { OnOk result (message.new ≡ message.old ++ blank c) }
{
    if c == '\t' {
        message.push('\t')
    } else {
        push_spaces(message, columns(c))
    }
}

// Adds what is as wide as some characters: tabs for tabs, and spaces for the rest.
fn push_blank(message: &mut Message, characters: &[char]) -> Result<(), NoMemory>
    ensures { OnOk result (message.new ≡ message.old ++ blank_below characters.now) }
{
    for c in characters {
        push_blank_below(message, *c)?;
    }
    Ok(())
}

// The characters before a place that are shown, and what marks that there are more.
fn shown_before(characters: &[char]) -> (&'static str, &[char]) {
    match characters.len().checked_sub(MOST_BESIDE) {
        Some(left) if left > 0 => ("...", &characters[left..]),
        _ => ("", characters),
    }
}

// The characters behind a place that are shown, and what marks that there are more.
fn shown_behind(characters: &[char]) -> (&[char], &'static str) {
    match characters.split_at_checked(MOST_BESIDE) {
        Some((front, [_, ..])) => (front, "..."),
        _ => (characters, ""),
    }
}

/// Adds the line of a spot, of a long line what stands around the place, and a caret below the
/// place. Of an empty line nothing is added.
pub(crate) fn push_line_and_caret(
    alloc: Global,
    message: &mut Message,
    spot: &Spot,
) -> Result<(), NoMemory>
    ensures { EndsLine message.old → OnOk result (EndsLine message.new) }
{
    let before = characters_of(alloc, spot.line_before())?;
    let behind = characters_of(alloc, spot.line_behind())?;
    if before.is_empty() && behind.is_empty() {
        return Ok(());
    }
    let (more_before, before) = shown_before(before.as_slice());
    let (behind, more_behind) = shown_behind(behind.as_slice());
    message.push_text("  ")?;
    message.push_text(more_before)?;
    message.push_chars(before)?;
    message.push_chars(behind)?;
    message.push_text(more_behind)?;
    message.end_line()?;
    push_spaces(message, 2 + more_before.len())?;
    push_blank(message, before)?;
    message.push('^')?;
    message.end_line()
}
