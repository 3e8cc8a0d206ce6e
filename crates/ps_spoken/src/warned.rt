//! Warnings, as objects.
ghost use Rattle.ps_spoken.specs.Numbers.{Says};
ghost use Rattle.ps_spoken.specs.Warned.{line_text, said_members, warned_item, warned_items};
ghost use Rattle.ps_spoken.specs.Warned.{warned_member};

use crate::listing::write_comma;
use crate::numbers::{append, number};
use crate::strings::write_string;
use ps_io::NoMemory;

/// A warning about a problem, as it goes with an answer.
#[derive(Drop)]
pub struct Warned {
    /// The line that it is about, where that is known.
    pub line: Option<u32>,
    /// The word for its kind.
    pub kind: &'static [u8],
    /// Its words.
    pub text: Vec<u8>,
}

// Writes a line, where it is known.
fn write_line(out: &mut Vec<u8>, line: Option<u32>) -> Result<(), NoMemory>
    ensures { Says result out.old.items out.new.items (line_text line) }
{
    match line {
        Some(line) => number(out, i128::from(line)),
        None => append(out, b"null"),
    }
}

// Writes a warning's kind and its words.
#[tactic(auto, unfolding(crate::specs::Warned::said_members))]
fn write_said(out: &mut Vec<u8>, it: &Warned) -> Result<(), NoMemory>
    ensures { Says result out.old.items out.new.items (said_members it.now) }
{
    append(out, b",\"kind\":")?;
    write_string(out, it.kind)?;
    append(out, b",\"text\":")?;
    write_string(out, it.text.as_slice())?;
    append(out, b"}")
}

// Writes a warning, and a comma before it but before the first.
#[tactic(auto, unfolding(crate::specs::Warned::warned_item))]
fn write_item(out: &mut Vec<u8>, place: usize, it: &Warned) -> Result<(), NoMemory>
    ensures { Says result out.old.items out.new.items (warned_item place it.now) }
{
    write_comma(out, place)?;
    append(out, b"{\"line\":")?;
    write_line(out, it.line)?;
    write_said(out, it)
}

// Writes warnings, with commas between them.
fn write_items(out: &mut Vec<u8>, all: &[Warned]) -> Result<(), NoMemory>
    ensures { Says result out.old.items out.new.items (warned_items all.now) }
{
    for place in 0..all.len() {
        write_item(out, place, &all[place])?;
    }
    Ok(())
}

/// Writes the member that has warnings.
#[tactic(auto, unfolding(crate::specs::Warned::warned_member))]
pub(crate) fn write_warnings(out: &mut Vec<u8>, all: &[Warned]) -> Result<(), NoMemory>
    ensures { Says result out.old.items out.new.items (warned_member all.now) }
{
    append(out, b",\"warnings\":[")?;
    write_items(out, all)?;
    append(out, b"]")
}
