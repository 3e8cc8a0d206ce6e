//! Reports that are read.
ghost use Rattle.std.specs.Prelude.{IfOk, IfErr};
ghost use Rattle.ps_answer.specs.Answers.{answer_items, IsAnswerCounted};
ghost use Rattle.ps_answer.specs.ExpectedParts.{at_start};
ghost use Rattle.ps_answer.specs.Faults.{IsReport};
ghost use Rattle.ps_reader.specs.Taken.{IsValueRead};
ghost use Rattle.ps_reader.specs.Errors.{TellsFault};

use crate::causes::verdict;
use crate::lines::Lines;
use crate::queries::parts;
use crate::traces::trace;
use ps_answer::{Answer, Part, ReportError};
use std::alloc::Global;

/// Reads a report: the answer whose text the bytes are, or the first line at fault by its kind and
/// its number from 1. Memory lacks only at a line for which it is taken, where none before it is at
/// fault.
pub fn read_report(alloc: Global, bytes: &[u8]) -> Result<Answer, ReportError>
    ensures found { IfOk result (λ a. IsReport bytes.now a) }
    ensures told { IfErr result (λ e. TellsFault bytes.now e) }
{
    let mut lines = Lines::of(alloc, bytes);
    let answer = answer(&mut lines)?;
    lines.end()?;
    Ok(answer)
}

fn answer(lines: &mut Lines<'_>) -> Result<Answer, ReportError>
    ensures answer { IsValueRead answer_items at_start lines.old lines.new result }
    ensures counted { IfOk result IsAnswerCounted }
{
    lines.take(Part::AReport)?;
    let verdict = verdict(lines)?;
    let first = trace(lines)?;
    let parts = parts(lines)?;
    Ok(Answer {
        verdict,
        first,
        parts,
    })
}
