//! Sentences that clash, for people.
ghost use Rattle.std.specs.Prelude.{◌≡◌};
ghost use Rattle.ps_spoken.specs.Numbers.{Says};
ghost use Rattle.ps_spoken.specs.Clashes.{clash_text, clash_texts, clashing_text};
ghost use Rattle.ps_spoken.specs.Clashes.{core_text, heading_text};
ghost use Rattle.ps_spoken.specs.Sentences.{line_at, sentence_text};

use crate::cause::write_cause;
use crate::numbers::{append, number};
use crate::rests::{is_alone, write_left};
use ps_answer::{Cause, Verdict};
use ps_canonical::write_statement;
use ps_io::{List, NoMemory};
use ps_problem::Problem;
use std::alloc::Global;

/// A sentence that clashes with others.
#[derive(Drop)]
pub struct Clashing {
    /// Its number, from 1.
    pub number: u32,
    /// What the problem comes to without it.
    pub rest: Verdict,
}

/// Sentences that clash, or why it isn't known which ones do.
#[derive(Drop)]
pub enum Clash {
    /// Sentences that can't be met together, but can without any one of them.
    Irreducible(List<Clashing>),
    /// What stopped the search for them.
    Open(Cause),
}

/// Writes the sentence of a number, from 1; nothing where there is none.
#[tactic(auto, using(crate::proofs::ClashLists::sentence_there))]
pub(crate) fn write_sentence(
    alloc: Global,
    out: &mut Vec<u8>,
    problem: &Problem,
    number: u32,
) -> Result<(), NoMemory>
    ensures { Says result out.old.items out.new.items (sentence_text problem.now number) }
{
    let place = number.saturating_sub(1) as usize;
    match problem.sentences().get(place) {
        Some(sentence) => write_statement(alloc, problem, sentence, out),
        None => Ok(()),
    }
}

/// The line on which the sentence of a number begins, from 1; 0 where it isn't told.
pub(crate) fn line_of(lines: &[u32], number: u32) -> u32
    ensures { result ≡ line_at lines.now number }
{
    let place = number.saturating_sub(1) as usize;
    lines.get(place).copied().unwrap_or(0)
}

// Writes a sentence with its number and its line.
#[tactic(auto, unfolding(crate::specs::Clashes::clashing_text))]
fn write_clashing(
    alloc: Global,
    out: &mut Vec<u8>,
    problem: &Problem,
    lines: &[u32],
    it: &Clashing,
) -> Result<(), NoMemory>
    ensures { Says result out.old.items out.new.items
        (clashing_text problem.now lines.now it.now) }
{
    append(out, b"  sentence ")?;
    number(out, i128::from(it.number))?;
    append(out, b", line ")?;
    number(out, i128::from(line_of(lines, it.number)))?;
    append(out, b": ")?;
    write_sentence(alloc, out, problem, it.number)?;
    append(out, b";\n")
}

// Writes sentences, each with its number and its line.
fn write_all_clashing(
    alloc: Global,
    out: &mut Vec<u8>,
    problem: &Problem,
    lines: &[u32],
    clashing: &[Clashing],
) -> Result<(), NoMemory>
    ensures { Says result out.old.items out.new.items
        (clash_texts problem.now lines.now clashing.now) }
{
    for sentence in clashing {
        write_clashing(alloc, out, problem, lines, sentence)?;
    }
    Ok(())
}

// Writes what is wrong with sentences that clash.
fn write_heading(out: &mut Vec<u8>, is_alone: bool) -> Result<(), NoMemory>
    ensures { Says result out.old.items out.new.items (heading_text is_alone) }
{
    if is_alone {
        return append(out, b"no distribution meets this sentence:\n");
    }
    append(out, b"these sentences clash:\n")
}

// Writes sentences that clash.
fn write_core(
    alloc: Global,
    out: &mut Vec<u8>,
    problem: &Problem,
    lines: &[u32],
    clashing: &[Clashing],
) -> Result<(), NoMemory>
    ensures { Says result out.old.items out.new.items
        (core_text problem.now lines.now clashing.now) }
{
    write_heading(out, is_alone(clashing))?;
    write_all_clashing(alloc, out, problem, lines, clashing)?;
    write_left(out, clashing)
}

/// Writes which sentences of a problem clash, with the lines on which its sentences begin, and
/// what it comes to without each of them.
pub fn write_clash(
    alloc: Global,
    out: &mut Vec<u8>,
    problem: &Problem,
    lines: &[u32],
    clash: &Clash,
) -> Result<(), NoMemory>
    ensures { Says result out.old.items out.new.items (clash_text problem.now lines.now clash.now) }
{
    match clash {
        Clash::Irreducible(sentences) => {
            write_core(alloc, out, problem, lines, sentences.as_slice())
        }
        Clash::Open(cause) => {
            append(out, b"which of them clash isn't known: ")?;
            write_cause(out, cause)?;
            append(out, b"\n")
        }
    }
}
