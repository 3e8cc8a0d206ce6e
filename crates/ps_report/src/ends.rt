//! Lines that are written as they stand, and lines of one word.
ghost use Rattle.std.specs.Prelude.{◌≡◌, [], ◌∷◌};
ghost use Rattle.ps_answer.specs.declared.item.LineItem.TheVariants.{Report, Consistent, Inconsistent};
ghost use Rattle.ps_answer.specs.declared.item.LineItem.TheVariants.{Bounds, Impossible, End};
ghost use Rattle.ps_io.specs.Lines.{text_of};
ghost use Rattle.ps_io.specs.Wrote.{Wrote};
ghost use Rattle.ps_report.specs.Written.{WroteItem};

use ps_io::{Lines, Sink, WriteFault};

/// Writes the line as it stands.
pub(crate) fn end_line<O: Sink>(lines: &mut Lines<'_, O>) -> Result<(), WriteFault>
    ensures { Wrote O.written O.faults lines.old lines.new result (text_of lines.old ∷ []) }
{
    lines.end_line()
}

/// Writes the first line of a report.
pub fn write_report_head<O: Sink>(lines: &mut Lines<'_, O>) -> Result<(), WriteFault>
    requires { text_of lines.old ≡ [] }
    ensures { WroteItem O.Sink lines.old lines.new result Report }
{
    lines.word(b"report");
    lines.number(1);
    lines.end_line()
}

/// Writes that a problem is consistent.
pub fn write_consistent<O: Sink>(lines: &mut Lines<'_, O>) -> Result<(), WriteFault>
    requires { text_of lines.old ≡ [] }
    ensures { WroteItem O.Sink lines.old lines.new result Consistent }
{
    lines.word(b"consistent");
    lines.end_line()
}

/// Writes that a problem is inconsistent.
pub fn write_inconsistent<O: Sink>(lines: &mut Lines<'_, O>) -> Result<(), WriteFault>
    requires { text_of lines.old ≡ [] }
    ensures { WroteItem O.Sink lines.old lines.new result Inconsistent }
{
    lines.word(b"inconsistent");
    lines.end_line()
}

/// Writes that a query has bounds.
pub fn write_bounds<O: Sink>(lines: &mut Lines<'_, O>) -> Result<(), WriteFault>
    requires { text_of lines.old ≡ [] }
    ensures { WroteItem O.Sink lines.old lines.new result Bounds }
{
    lines.word(b"bounds");
    lines.end_line()
}

/// Writes that a query's evidence is impossible.
pub fn write_impossible<O: Sink>(lines: &mut Lines<'_, O>) -> Result<(), WriteFault>
    requires { text_of lines.old ≡ [] }
    ensures { WroteItem O.Sink lines.old lines.new result Impossible }
{
    lines.word(b"impossible");
    lines.end_line()
}

/// Writes the last line of a report.
pub fn write_end<O: Sink>(lines: &mut Lines<'_, O>) -> Result<(), WriteFault>
    requires { text_of lines.old ≡ [] }
    ensures { WroteItem O.Sink lines.old lines.new result End }
{
    lines.word(b"end");
    lines.end_line()
}
