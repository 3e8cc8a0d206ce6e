//! What is shown at the end of an answer.
ghost use Rattle.std.specs.Prelude.{◌≡◌, ◌<◌, ◌≤◌, pos, IfOk};
ghost use Rattle.ps_frac.specs.declared.limits.TheConstants.{MOST_DIGITS};
ghost use Rattle.ps_spoken.specs.Objects.{facts, object};
ghost use Rattle.ps_valid.specs.Answers.{IsRightOf};
ghost use Rattle.ps_ask.specs.declared.settings.Style.TheVariants as style;
ghost use Rattle.ps_ask.specs.Statuses.{open_in, status_after, status_number};
ghost use Rattle.ps_ask.specs.Shown.{AreSettings, end_words};
ghost use Rattle.ps_ask.specs.Replies.{IsShownFor};

use crate::answered::{open_of, status_of};
use crate::clash::clash_in;
use crate::company::Company;
use crate::notes::{Input, problem_warned};
use crate::reply::Reply;
use crate::settings::{Settings, Style};
use crate::unused::unused_in;
use ps_answer::Answer;
use ps_hints::sentence_lines;
use ps_io::{List, NoMemory};
use ps_problem::Problem;
use ps_spoken::{Clash, Details, Told, Warned, write_clash, write_object, write_unused};
use std::alloc::Global;

// Which sentences clash, and on which no bound rests, in words, where that is told.
fn end_text(
    alloc: Global,
    problem: &Problem,
    lines: &[u32],
    clash: &Option<Clash>,
    unused: &Option<List<u32>>,
) -> Result<Vec<u8>, NoMemory>
    ensures { IfOk result
        (λ v. v.items ≡ end_words problem.now lines.now clash.now unused.now) }
{
    let mut text = Vec::new(alloc);
    if let Some(known) = clash {
        write_clash(alloc, &mut text, problem, lines, known)?;
    }
    if let Some(known) = unused {
        write_unused(alloc, &mut text, problem, lines, known.as_slice())?;
    }
    Ok(text)
}

// The object of an answer.
fn object_text(
    alloc: Global,
    problem: &Problem,
    answer: &Answer,
    told: &Told<'_>,
) -> Result<Vec<u8>, NoMemory>
    requires some { 0 < told.now.digits }
    requires few { told.now.digits ≤ MOST_DIGITS }
    ensures { IfOk result
        (λ v. v.items ≡ object problem.now answer.now (facts told.now)) }
{
    let mut text = Vec::new(alloc);
    write_object(alloc, &mut text, problem, answer, told)?;
    Ok(text)
}

// What is told beside an answer.
fn told_beside<'a>(
    settings: Settings,
    name: &'a str,
    lines: &'a [u32],
    answer: &Answer,
    details: &'a [Details],
    clash: &'a Option<Clash>,
    unused: &'a Option<List<u32>>,
    warnings: &'a [Warned],
) -> Told<'a>
    ensures digits { result.digits ≡ settings.digits }
    ensures file { result.file.now ≡ name.now }
    ensures details { result.details.now ≡ details.now }
    ensures clash { result.clash.now ≡ clash.now }
    ensures unused { result.unused.now ≡ unused.now }
    ensures lines { result.lines.now ≡ lines.now }
    ensures warnings { result.warnings.now ≡ warnings.now }
    ensures unfinished { result.unfinished ≡ pos (open_in answer.now) }
    ensures status { result.status ≡ status_number (status_after settings.is_timed answer.now) }
{
    Told {
        digits: settings.digits,
        file: name.as_bytes(),
        details,
        clash,
        unused,
        lines,
        warnings,
        unfinished: open_of(answer) as i128,
        status: status_of(settings.is_timed, answer).number(),
    }
}

// The sentences that clash, or on which no bound rests, behind an answer in words.
#[tactic(auto, using(crate::proofs::ShownLaws::words_shown))]
fn in_words<W: Company>(
    alloc: Global,
    settings: Settings,
    input: Input<'_>,
    problem: &Problem,
    answer: Answer,
    details: &[Details],
    watch: &mut W,
) -> Result<Reply, NoMemory>
    requires settings { AreSettings settings }
    requires right { IsRightOf problem.now answer }
    requires words { settings.style ≡ style.Words }
    ensures { IfOk result
        (IsShownFor settings input.entry.name.now problem.now answer details.now) }
{
    let clash = clash_in(alloc, problem, settings, &answer, watch)?;
    let lines = sentence_lines(alloc, input.bytes)?;
    let unused = unused_in(alloc, settings, problem, &answer, details)?;
    let text = end_text(alloc, problem, &lines, &clash, &unused)?;
    Ok(Reply::Text { answer, text })
}

// An answer as an object, with the sentences that clash where some do.
#[tactic(auto, using(crate::proofs::ShownLaws::object_shown))]
fn in_object<W: Company>(
    alloc: Global,
    settings: Settings,
    input: Input<'_>,
    problem: &Problem,
    answer: Answer,
    details: &[Details],
    watch: &mut W,
) -> Result<Reply, NoMemory>
    requires settings { AreSettings settings }
    requires right { IsRightOf problem.now answer }
    requires json { settings.style ≡ style.Json }
    ensures { IfOk result
        (IsShownFor settings input.entry.name.now problem.now answer details.now) }
{
    let clash = clash_in(alloc, problem, settings, &answer, watch)?;
    let lines = sentence_lines(alloc, input.bytes)?;
    let unused = unused_in(alloc, settings, problem, &answer, details)?;
    let warnings = problem_warned(alloc, settings, input, problem)?;
    let told = told_beside(
        settings, input.name, &lines, &answer, details, &clash, &unused, &warnings,
    );
    let text = object_text(alloc, problem, &answer, &told)?;
    Ok(Reply::Text { answer, text })
}

/// The reply that shows the end of an answer, beside what is told of each query.
#[tactic(auto, using(crate::proofs::ShownLaws::values_shown, crate::proofs::ShownLaws::exact_shown, crate::proofs::ShownLaws::report_shown))]
pub fn show_last<W: Company>(
    alloc: Global,
    settings: Settings,
    input: Input<'_>,
    problem: &Problem,
    answer: Answer,
    details: &[Details],
    watch: &mut W,
) -> Result<Reply, NoMemory>
    requires settings { AreSettings settings }
    requires right { IsRightOf problem.now answer }
    ensures { IfOk result
        (IsShownFor settings input.entry.name.now problem.now answer details.now) }
{
    match settings.style {
        Style::Words => in_words(alloc, settings, input, problem, answer, details, watch),
        Style::Values | Style::Exact => Ok(Reply::Text {
            answer,
            text: Vec::new(alloc),
        }),
        Style::Json => in_object(alloc, settings, input, problem, answer, details, watch),
        Style::Report => Ok(Reply::Report(answer)),
    }
}
