//! Warnings about a problem.
ghost use Rattle.ps_problem.specs.Problems.{IsLinear, IsSentence};
ghost use Rattle.ps_hints.specs.Shown.{AddsLines};

use crate::kind::Wanted;
use crate::names_warned::{name_warning, unstated_warning};
use crate::sentences::{has_given, is_law, or_warning, turned_warning, twice_warning};
use crate::starts::{query_lines, sentence_lines};
use crate::warning::{Warning, write_warning_lines};
use ps_io::NoMemory;
use ps_problem::{Linear, Problem, Sentence};
use std::alloc::Global;

// Adds a warning where there is one.
fn push(out: &mut Vec<Warning>, warning: Option<Warning>) -> Result<(), NoMemory> {
    if let Some(warning) = warning {
        out.push(warning)?;
    }
    Ok(())
}

// Adds the warnings about a sentence's formulas that are joined by one `|`, if it states no law.
fn warn_of_or(
    alloc: Global,
    out: &mut Vec<Warning>,
    line: Option<u32>,
    problem: &Problem,
    sentence: &Sentence,
) -> Result<(), NoMemory>
    requires { IsSentence problem.now.nodes sentence.now }
{
    match sentence {
        Sentence::Plain { first, .. } if is_law(first) => Ok(()),
        Sentence::Plain { first, .. } => push(
            out,
            or_warning(alloc, line, problem, first.formula, first.given)?,
        ),
        Sentence::Linear(linear) => warn_of_terms(alloc, out, line, problem, linear),
    }
}

// Adds the warnings about the formulas of a linear sentence's terms.
fn warn_of_terms(
    alloc: Global,
    out: &mut Vec<Warning>,
    line: Option<u32>,
    problem: &Problem,
    linear: &Linear,
) -> Result<(), NoMemory>
    requires { IsLinear problem.now.nodes linear.now }
{
    for term in linear.terms.as_slice() {
        push(out, or_warning(alloc, line, problem, term.0, None)?)?;
    }
    Ok(())
}

// Adds the warnings about a sentence, by its index.
fn warn_of_sentence(
    alloc: Global,
    out: &mut Vec<Warning>,
    wanted: Wanted,
    lines: &[u32],
    index: usize,
    problem: &Problem,
    sentence: &Sentence,
) -> Result<(), NoMemory>
    requires { IsSentence problem.now.nodes sentence.now }
{
    let line = lines.get(index).copied();
    if wanted.or {
        warn_of_or(alloc, out, line, problem, sentence)?;
    }
    if wanted.interval {
        push(out, turned_warning(alloc, line, problem, sentence)?)?;
    }
    if wanted.twice {
        push(out, twice_warning(alloc, lines, index, problem, sentence)?)?;
    }
    Ok(())
}

// Adds the warnings about the sentences.
fn warn_of_sentences(
    alloc: Global,
    out: &mut Vec<Warning>,
    wanted: Wanted,
    bytes: &[u8],
    problem: &Problem,
) -> Result<(), NoMemory> {
    let lines = sentence_lines(alloc, bytes)?;
    for (index, sentence) in problem.sentences().as_slice().iter().enumerate() {
        warn_of_sentence(alloc, out, wanted, &lines, index, problem, sentence)?;
    }
    Ok(())
}

// Adds the warnings about the queries.
fn warn_of_queries(
    alloc: Global,
    out: &mut Vec<Warning>,
    bytes: &[u8],
    problem: &Problem,
) -> Result<(), NoMemory> {
    let lines = query_lines(alloc, bytes)?;
    for (index, query) in problem.queries().as_slice().iter().enumerate() {
        let line = lines.get(index).copied();
        push(
            out,
            or_warning(alloc, line, problem, query.formula, query.given)?,
        )?;
    }
    Ok(())
}

// Adds the warning about an atom: its name is close to another, or else it is in no sentence.
fn warn_of_atom(
    alloc: Global,
    out: &mut Vec<Warning>,
    wanted: Wanted,
    bytes: &[u8],
    problem: &Problem,
    atom: u16,
) -> Result<(), NoMemory> {
    if wanted.name {
        if let Some(warning) = name_warning(alloc, bytes, problem, atom)? {
            out.push(warning)?;
            return Ok(());
        }
    }
    if wanted.unstated {
        push(out, unstated_warning(alloc, bytes, problem, atom)?)?;
    }
    Ok(())
}

/// The warnings about a problem and its text, of the kinds that are wanted: formulas without a
/// condition that are joined by one `|`, at its top, where no `given` stands in the text, and not in
/// a sentence that states a law; intervals whose ends are turned round; sentences that stand twice;
/// names that are used once and close to another; and atoms of queries that stand in no sentence.
pub fn warnings_about(
    alloc: Global,
    bytes: &[u8],
    problem: &Problem,
    wanted: Wanted,
) -> Result<Vec<Warning>, NoMemory> {
    let wanted = Wanted {
        or: wanted.or && !has_given(problem),
        ..wanted
    };
    let mut out = Vec::new(alloc);
    warn_of_sentences(alloc, &mut out, wanted, bytes, problem)?;
    if wanted.or {
        warn_of_queries(alloc, &mut out, bytes, problem)?;
    }
    for atom in 0..problem.atoms() {
        warn_of_atom(alloc, &mut out, wanted, bytes, problem, atom)?;
    }
    Ok(out)
}

/// Writes the warnings about a problem and its text, of all kinds, one line each:
/// `FILE:LINE: warning: ..`.
#[tactic(auto, using(crate::proofs::Lines::none))]
pub fn write_warnings(
    alloc: Global,
    out: &mut Vec<u8>,
    name: &str,
    bytes: &[u8],
    problem: &Problem,
) -> Result<(), NoMemory>
    // Whole lines are added, and no control characters that a terminal may take for a command.
    ensures { AddsLines out.old.items out.new.items }
{
    let found = warnings_about(alloc, bytes, problem, Wanted::all(true))?;
    write_warning_lines(alloc, out, name, &found)
}
