//! The pieces of an answer that are shown as soon as they are known.
ghost use Rattle.std.specs.Prelude.{◌<◌, ◌≡◌, ◌≤◌, IfOk};
ghost use Rattle.ps_problem.specs.Problems.{HasNodes};
ghost use Rattle.ps_frac.specs.declared.limits.TheConstants.{MOST_DIGITS};
ghost use Rattle.ps_spoken.specs.Exact.{query_exact};
ghost use Rattle.ps_spoken.specs.Quiet.{query_values, verdict_value};
ghost use Rattle.ps_spoken.specs.Spoken.{part_text, verdict_text};
ghost use Rattle.ps_ask.specs.Shown.{AreSettings};
ghost use Rattle.ps_ask.specs.Fronts.{part_piece, piece_of, verdict_piece};

use crate::settings::{Settings, Style};
use ps_answer::{QueryPart, Verdict};
use ps_io::NoMemory;
use ps_problem::{Problem, Query};
use ps_spoken::{
    Details, write_part, write_query_exact, write_query_values, write_verdict, write_verdict_value,
};
use std::alloc::Global;

// A verdict in words.
fn verdict_words(alloc: Global, verdict: &Verdict) -> Result<Vec<u8>, NoMemory>
    ensures { IfOk result (λ v. v.items ≡ verdict_text verdict.now) }
{
    let mut text = Vec::new(alloc);
    write_verdict(&mut text, verdict)?;
    Ok(text)
}

// A verdict in a word.
fn verdict_word(alloc: Global, verdict: &Verdict) -> Result<Vec<u8>, NoMemory>
    ensures { IfOk result (λ v. v.items ≡ verdict_value verdict.now) }
{
    let mut text = Vec::new(alloc);
    write_verdict_value(&mut text, verdict)?;
    Ok(text)
}

/// The piece of a verdict.
pub fn verdict_piece(alloc: Global, style: Style, verdict: &Verdict) -> Result<Vec<u8>, NoMemory>
    ensures { IfOk result (λ v. v.items ≡ verdict_piece style verdict.now) }
{
    match style {
        Style::Words => verdict_words(alloc, verdict),
        Style::Values | Style::Exact => verdict_word(alloc, verdict),
        Style::Json | Style::Report => Ok(Vec::new(alloc)),
    }
}

// A part in words.
fn part_words(
    alloc: Global,
    digits: u32,
    problem: &Problem,
    query: Query,
    part: &QueryPart,
    told: &Details,
) -> Result<Vec<u8>, NoMemory>
    requires some { 0 < digits }
    requires few { digits ≤ MOST_DIGITS }
    requires query { HasNodes problem.now.nodes query.formula query.given query.both }
    ensures { IfOk result
        (λ v. v.items ≡ part_text digits problem.now query part.now told.now) }
{
    let mut text = Vec::new(alloc);
    write_part(alloc, &mut text, problem, query, part, told, digits)?;
    Ok(text)
}

// The values of a part.
fn part_values(alloc: Global, digits: u32, part: &QueryPart) -> Result<Vec<u8>, NoMemory>
    requires some { 0 < digits }
    requires few { digits ≤ MOST_DIGITS }
    ensures { IfOk result (λ v. v.items ≡ query_values digits part.now.answer) }
{
    let mut text = Vec::new(alloc);
    write_query_values(&mut text, &part.answer, digits)?;
    Ok(text)
}

// The exact values of a part.
fn part_exact(alloc: Global, part: &QueryPart) -> Result<Vec<u8>, NoMemory>
    ensures { IfOk result (λ v. v.items ≡ query_exact part.now.answer) }
{
    let mut text = Vec::new(alloc);
    write_query_exact(&mut text, &part.answer)?;
    Ok(text)
}

/// The piece of a query's part, with what is told of it.
pub fn part_piece(
    alloc: Global,
    settings: Settings,
    problem: &Problem,
    query: Query,
    part: &QueryPart,
    told: &Details,
) -> Result<Vec<u8>, NoMemory>
    requires settings { AreSettings settings }
    requires query { HasNodes problem.now.nodes query.formula query.given query.both }
    ensures { IfOk result
        (λ v. v.items ≡ piece_of settings problem.now query (part.now, told.now)) }
{
    match settings.style {
        Style::Words => part_words(alloc, settings.digits, problem, query, part, told),
        Style::Values => part_values(alloc, settings.digits, part),
        Style::Exact => part_exact(alloc, part),
        Style::Json | Style::Report => Ok(Vec::new(alloc)),
    }
}
