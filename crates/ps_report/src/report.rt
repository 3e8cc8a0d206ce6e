//! Reports.
ghost use Rattle.std.specs.Prelude.{◌≡◌, ◌++◌, [], ◌∷◌};
ghost use Rattle.ps_answer.specs.Answers.{answer_items, answer_lines, part_items};
ghost use Rattle.ps_answer.specs.declared.item.LineItem.TheVariants as line;
ghost use Rattle.ps_io.specs.Lines.{text_of};
ghost use Rattle.ps_io.specs.Wrote.{Wrote};
ghost use Rattle.ps_report.specs.Parts.{WroteItems, AreShort};
ghost use Rattle.ps_report.specs.Reports.{below_head, below_verdict};

use crate::causes::write_verdict;
use crate::ends::{write_end, write_report_head};
use crate::parts::write_trace;
use crate::queries::write_parts;
use ps_answer::{Answer, QueryPart};
use ps_io::{Lines, Sink, WriteFault};

/// Writes the report of an answer. No memory is taken. After a fault a proper prefix of the report
/// was written.
pub fn write_report<O: Sink>(answer: &Answer, lines: &mut Lines<'_, O>) -> Result<(), WriteFault>
    requires empty { text_of lines.old ≡ [] }
    requires short { AreShort (answer_items answer.now) }
    ensures { Wrote O.written O.faults lines.old lines.new result (answer_lines answer.now) }
{
    write_report_head(lines)?;
    write_below_head(lines, answer)
}

fn write_below_head<O: Sink>(lines: &mut Lines<'_, O>, answer: &Answer) -> Result<(), WriteFault>
    requires empty { text_of lines.old ≡ [] }
    requires short { AreShort (below_head answer.now) }
    ensures { WroteItems O.Sink lines.old lines.new result (below_head answer.now) }
{
    write_verdict(lines, &answer.verdict)?;
    write_below_verdict(lines, answer)
}

fn write_below_verdict<O: Sink>(lines: &mut Lines<'_, O>, answer: &Answer) -> Result<(), WriteFault>
    requires empty { text_of lines.old ≡ [] }
    requires short { AreShort (below_verdict answer.now) }
    ensures { WroteItems O.Sink lines.old lines.new result (below_verdict answer.now) }
{
    write_trace(lines, answer.first.as_slice())?;
    write_parts_and_end(lines, answer.parts.as_slice())
}

fn write_parts_and_end<O: Sink>(
    lines: &mut Lines<'_, O>,
    parts: &[QueryPart],
) -> Result<(), WriteFault>
    requires empty { text_of lines.old ≡ [] }
    requires short { AreShort (part_items 1 parts.now ++ line.End ∷ []) }
    ensures { WroteItems O.Sink lines.old lines.new result
        (part_items 1 parts.now ++ line.End ∷ []) }
{
    write_parts(lines, parts)?;
    write_end(lines)
}
