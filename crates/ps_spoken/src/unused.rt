//! The sentences on which no bound rests.
ghost use Rattle.ps_spoken.specs.Numbers.{Puts};
ghost use Rattle.ps_spoken.specs.Unused.{unused_array, unused_item, unused_items, unused_line};
ghost use Rattle.ps_spoken.specs.Unused.{unused_lines, unused_list, unused_member, unused_text};

use crate::clash::{line_of, write_sentence};
use crate::json_details::write_where;
use crate::listing::write_comma;
use crate::numbers::{append, number};
use ps_io::{List, NoMemory};
use ps_problem::Problem;
use std::alloc::Global;

// Writes a sentence with its line.
#[tactic(auto, unfolding(crate::specs::Unused::unused_line))]
fn write_line(
    alloc: Global,
    out: &mut Vec<u8>,
    problem: &Problem,
    lines: &[u32],
    sentence: u32,
) -> Result<(), NoMemory>
    ensures { Puts result out.old out.new
        (unused_line problem.now lines.now sentence) }
{
    append(out, b"  line ")?;
    number(out, i128::from(line_of(lines, sentence)))?;
    append(out, b": ")?;
    write_sentence(alloc, out, problem, sentence)?;
    append(out, b"\n")
}

// Writes sentences, each with its line.
fn write_lines(
    alloc: Global,
    out: &mut Vec<u8>,
    problem: &Problem,
    lines: &[u32],
    sentences: &[u32],
) -> Result<(), NoMemory>
    ensures { Puts result out.old out.new
        (unused_lines problem.now lines.now sentences.now) }
{
    for sentence in sentences {
        write_line(alloc, out, problem, lines, *sentence)?;
    }
    Ok(())
}

// Writes that no bound rests on these.
#[tactic(auto, unfolding(crate::specs::Unused::unused_list))]
fn write_list(
    alloc: Global,
    out: &mut Vec<u8>,
    problem: &Problem,
    lines: &[u32],
    sentences: &[u32],
) -> Result<(), NoMemory>
    ensures { Puts result out.old out.new
        (unused_list problem.now lines.now sentences.now) }
{
    append(out, b"no bound rests on these sentences:\n")?;
    write_lines(alloc, out, problem, lines, sentences)
}

/// Writes the sentences on which no bound rests, with the lines on which sentences begin.
pub fn write_unused(
    alloc: Global,
    out: &mut Vec<u8>,
    problem: &Problem,
    lines: &[u32],
    sentences: &[u32],
) -> Result<(), NoMemory>
    ensures { Puts result out.old out.new
        (unused_text problem.now lines.now sentences.now) }
{
    if sentences.is_empty() {
        return append(out, b"some bound rests on each sentence\n");
    }
    write_list(alloc, out, problem, lines, sentences)
}

// Writes a sentence as an object, and a comma before it but before the first.
#[tactic(auto, unfolding(crate::specs::Unused::unused_item))]
fn write_item(
    alloc: Global,
    out: &mut Vec<u8>,
    problem: &Problem,
    lines: &[u32],
    place: usize,
    sentence: u32,
) -> Result<(), NoMemory>
    ensures { Puts result out.old out.new
        (unused_item problem.now lines.now place sentence) }
{
    write_comma(out, place)?;
    write_where(alloc, out, problem, sentence, line_of(lines, sentence))?;
    append(out, b"}")
}

// Writes sentences as objects.
fn write_items(
    alloc: Global,
    out: &mut Vec<u8>,
    problem: &Problem,
    lines: &[u32],
    sentences: &[u32],
) -> Result<(), NoMemory>
    ensures { Puts result out.old out.new
        (unused_items problem.now lines.now sentences.now) }
{
    for place in 0..sentences.len() {
        write_item(alloc, out, problem, lines, place, sentences[place])?;
    }
    Ok(())
}

// Writes the member that has them.
#[tactic(auto, unfolding(crate::specs::Unused::unused_array))]
fn write_array(
    alloc: Global,
    out: &mut Vec<u8>,
    problem: &Problem,
    lines: &[u32],
    sentences: &[u32],
) -> Result<(), NoMemory>
    ensures { Puts result out.old out.new
        (unused_array problem.now lines.now sentences.now) }
{
    append(out, b",\"unused\":[")?;
    write_items(alloc, out, problem, lines, sentences)?;
    append(out, b"]")
}

/// Writes the member that has them, where they are told.
pub(crate) fn write_unused_member(
    alloc: Global,
    out: &mut Vec<u8>,
    problem: &Problem,
    lines: &[u32],
    sentences: &Option<List<u32>>,
) -> Result<(), NoMemory>
    ensures { Puts result out.old out.new
        (unused_member problem.now lines.now sentences.now) }
{
    match sentences {
        Some(known) => write_array(alloc, out, problem, lines, known.as_slice()),
        None => append(out, b""),
    }
}
