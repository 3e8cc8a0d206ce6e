//! Sentences that clash, as an object.
ghost use Rattle.std.specs.Prelude.{◌≡◌};
ghost use Rattle.ps_spoken.specs.Numbers.{Says};
ghost use Rattle.ps_spoken.specs.JsonClashes.{clashing, clash_items, clash_member};
ghost use Rattle.ps_spoken.specs.JsonClashes.{clash_object, core_object, rest_end, where_text};

use crate::cause::write_cause;
use crate::clash::{Clash, Clashing, line_of, write_sentence};
use crate::listing::write_comma;
use crate::numbers::{append, number};
use ps_answer::Verdict;
use ps_io::NoMemory;
use ps_problem::Problem;
use std::alloc::Global;

// Writes the number of a sentence, and its line.
#[tactic(auto, unfolding(crate::specs::JsonClashes::where_text))]
fn write_where(out: &mut Vec<u8>, lines: &[u32], sentence: u32) -> Result<(), NoMemory>
    ensures { Says result out.old.items out.new.items (where_text lines.now sentence) }
{
    append(out, b"{\"number\":")?;
    number(out, i128::from(sentence))?;
    append(out, b",\"line\":")?;
    number(out, i128::from(line_of(lines, sentence)))
}

// The end of the object of a sentence, with what the others come to.
fn rest_end(rest: &Verdict) -> &'static [u8]
    ensures { result.now ≡ rest_end rest.now }
{
    match rest {
        Verdict::Consistent(_) => b";\",\"without\":\"met\"}",
        Verdict::Inconsistent(_) => b";\",\"without\":\"clash\"}",
        Verdict::Open(_) => b";\",\"without\":\"unknown\"}",
    }
}

// Writes a sentence with its number and its line and what the others come to, and a comma before it
// but before the first.
#[tactic(auto, unfolding(crate::specs::JsonClashes::clashing))]
fn write_clashing(
    alloc: Global,
    out: &mut Vec<u8>,
    problem: &Problem,
    lines: &[u32],
    place: usize,
    it: &Clashing,
) -> Result<(), NoMemory>
    ensures { Says result out.old.items out.new.items
        (clashing problem.now lines.now place it.now) }
{
    write_comma(out, place)?;
    write_where(out, lines, it.number)?;
    append(out, b",\"text\":\"")?;
    write_sentence(alloc, out, problem, it.number)?;
    append(out, rest_end(&it.rest))
}

// Writes sentences, each with its number, its line and what is left without it.
fn write_all_clashing(
    alloc: Global,
    out: &mut Vec<u8>,
    problem: &Problem,
    lines: &[u32],
    all: &[Clashing],
) -> Result<(), NoMemory>
    ensures { Says result out.old.items out.new.items
        (clash_items problem.now lines.now all.now) }
{
    for place in 0..all.len() {
        write_clashing(alloc, out, problem, lines, place, &all[place])?;
    }
    Ok(())
}

// Writes sentences that clash.
fn write_core(
    alloc: Global,
    out: &mut Vec<u8>,
    problem: &Problem,
    lines: &[u32],
    all: &[Clashing],
) -> Result<(), NoMemory>
    ensures { Says result out.old.items out.new.items
        (core_object problem.now lines.now all.now) }
{
    append(out, b"{\"irreducible\":true,\"why\":null,\"sentences\":[")?;
    write_all_clashing(alloc, out, problem, lines, all)?;
    append(out, b"]}")
}

// Writes which sentences clash.
fn write_known(
    alloc: Global,
    out: &mut Vec<u8>,
    problem: &Problem,
    lines: &[u32],
    clash: &Clash,
) -> Result<(), NoMemory>
    ensures { Says result out.old.items out.new.items
        (clash_object problem.now lines.now clash.now) }
{
    match clash {
        Clash::Irreducible(sentences) => {
            write_core(alloc, out, problem, lines, sentences.as_slice())
        }
        Clash::Open(cause) => {
            append(out, b"{\"irreducible\":false,\"why\":\"")?;
            write_cause(out, cause)?;
            append(out, b"\",\"sentences\":[]}")
        }
    }
}

/// Writes which sentences of a problem clash, where some do.
pub fn write_clash(
    alloc: Global,
    out: &mut Vec<u8>,
    problem: &Problem,
    lines: &[u32],
    clash: &Option<Clash>,
) -> Result<(), NoMemory>
    ensures { Says result out.old.items out.new.items
        (clash_member problem.now lines.now clash.now) }
{
    match clash {
        Some(known) => write_known(alloc, out, problem, lines, known),
        None => append(out, b"null"),
    }
}
