//! Warnings about probabilities.
ghost use Rattle.std.specs.Prelude.{◌<◌, IfSome, length};
ghost use Rattle.ps_problem.specs.Problems.{IsSentence};
ghost use Rattle.ps_hints.specs.Shown.{AddsLines};

use crate::kind::WarningKind;
use crate::message::Message;
use crate::warning::{Warning, write_warning};
use ps_canonical::{write_probability, write_statement};
use ps_io::NoMemory;
use ps_problem::{Problem, Sentence};
use std::alloc::Global;

/// The front of a warning: the probability of a formula, perhaps given a condition, and words.
pub(crate) fn begin_about(
    alloc: Global,
    problem: &Problem,
    node: u32,
    given: Option<u32>,
    words: &str,
) -> Result<Message, NoMemory>
    requires formula { node < length problem.now.nodes }
    requires given { IfSome given (λ g. g < length problem.now.nodes) }
{
    let mut text = Vec::new(alloc);
    write_probability(alloc, problem, node, given, &mut text)?;
    let mut message = Message::new(alloc);
    message.push_bytes(text.as_slice())?;
    message.push_text(words)?;
    Ok(message)
}

/// The front of a warning: a sentence, and words.
pub(crate) fn begin_about_sentence(
    alloc: Global,
    problem: &Problem,
    sentence: &Sentence,
    words: &str,
) -> Result<Message, NoMemory>
    requires { IsSentence problem.now.nodes sentence.now }
{
    let mut text = Vec::new(alloc);
    match sentence {
        Sentence::Plain { first, .. } => {
            write_probability(alloc, problem, first.formula, first.given, &mut text)?;
        }
        Sentence::Linear(_) => write_statement(alloc, problem, sentence, &mut text)?,
    }
    let mut message = Message::new(alloc);
    message.push_bytes(text.as_slice())?;
    message.push_text(words)?;
    Ok(message)
}

// What is said of a condition that no distribution gives weight.
const IDLE: &str = ": the sentences give the condition probability 0, so this one says nothing";

/// The warning about a sentence, by the line that it begins on, whose condition no distribution that
/// meets all sentences gives weight.
pub fn idle_warning(
    alloc: Global,
    line: Option<u32>,
    problem: &Problem,
    sentence: &Sentence,
) -> Result<Warning, NoMemory>
    requires { IsSentence problem.now.nodes sentence.now }
{
    let message = begin_about_sentence(alloc, problem, sentence, IDLE)?;
    Ok(Warning {
        kind: WarningKind::Condition,
        line,
        text: message.into_text(),
    })
}

/// Writes the warning about a sentence whose condition no distribution that meets all sentences
/// gives weight.
#[tactic(auto, using(crate::proofs::Lines::none))]
pub fn write_idle_condition(
    alloc: Global,
    out: &mut Vec<u8>,
    name: &str,
    line: Option<&u32>,
    problem: &Problem,
    sentence: &Sentence,
) -> Result<(), NoMemory>
    requires { IsSentence problem.now.nodes sentence.now }
    // A whole line is added, and no control characters that a terminal may take for a command.
    ensures { AddsLines out.old.items out.new.items }
{
    let warning = idle_warning(alloc, line.copied(), problem, sentence)?;
    write_warning(alloc, out, name, &warning)
}
