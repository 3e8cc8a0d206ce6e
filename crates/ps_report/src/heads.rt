//! Lines of a word and numbers.
ghost use Rattle.std.specs.Prelude.{◌≡◌, []};
ghost use Rattle.ps_answer.specs.declared.item.LineItem.TheVariants.{ModelHead, DualHead, TraceHead};
ghost use Rattle.ps_answer.specs.declared.item.LineItem.TheVariants.{Query};
ghost use Rattle.ps_io.specs.Lines.{text_of};
ghost use Rattle.ps_report.specs.Written.{WroteItem};

use ps_io::{Lines, Sink, WriteFault};

/// Writes the first line of a model: its total, and how many worlds it has.
pub fn write_model_head<O: Sink>(
    lines: &mut Lines<'_, O>,
    total: &i128,
    count: u64,
) -> Result<(), WriteFault>
    requires { text_of lines.old ≡ [] }
    ensures { WroteItem O.Sink lines.old lines.new result (ModelHead total.now count) }
{
    lines.word(b"model");
    lines.number(*total);
    lines.number(count as i128);
    lines.end_line()
}

/// Writes the first line of a dual: its two numbers, and how many steps it has.
pub fn write_dual_head<O: Sink>(
    lines: &mut Lines<'_, O>,
    top: &i128,
    head: &i128,
    count: u64,
) -> Result<(), WriteFault>
    requires { text_of lines.old ≡ [] }
    ensures { WroteItem O.Sink lines.old lines.new result (DualHead top.now head.now count) }
{
    lines.word(b"dual");
    lines.number(*top);
    lines.number(*head);
    lines.number(count as i128);
    lines.end_line()
}

/// Writes the first line of a trace: how many events it has.
pub fn write_trace_head<O: Sink>(lines: &mut Lines<'_, O>, count: u64) -> Result<(), WriteFault>
    requires { text_of lines.old ≡ [] }
    ensures { WroteItem O.Sink lines.old lines.new result (TraceHead count) }
{
    lines.word(b"t");
    lines.number(count as i128);
    lines.end_line()
}

/// Writes the first line of a query: its number, from 1.
pub fn write_query<O: Sink>(lines: &mut Lines<'_, O>, number: u64) -> Result<(), WriteFault>
    requires { text_of lines.old ≡ [] }
    ensures { WroteItem O.Sink lines.old lines.new result (Query number) }
{
    lines.word(b"query");
    lines.number(number as i128);
    lines.end_line()
}
