//! Models, duals and traces, each with its head.
ghost use Rattle.std.specs.Prelude.{◌≡◌, [], map};
ghost use Rattle.ps_answer.specs.Answers.{entry_item, event_item};
ghost use Rattle.ps_answer.specs.Answers.{model_items, dual_items, trace_items};
ghost use Rattle.ps_answer.specs.declared.item.LineItem.TheVariants.{StepLine};
ghost use Rattle.ps_io.specs.Lines.{text_of};
ghost use Rattle.ps_report.specs.Parts.{WroteItems, AreShort, below_dual_head};

use crate::entries::{write_entry, write_event, write_rows, write_step_line};
use crate::heads::{write_dual_head, write_model_head, write_trace_head};
use ps_answer::{Dual, Model, Weighted};
use ps_io::{Lines, Sink, WriteFault};
use ps_pb::Step;
use ps_table::Event;

/// Writes a model: its total and how many worlds it has, and each of them with its weight.
pub fn write_model<O: Sink>(lines: &mut Lines<'_, O>, model: &Model) -> Result<(), WriteFault>
    requires empty { text_of lines.old ≡ [] }
    requires short { AreShort (model_items model.now) }
    ensures { WroteItems O.Sink lines.old lines.new result (model_items model.now) }
{
    write_model_head(lines, &model.total, model.worlds.len() as u64)?;
    write_entries(lines, model.worlds.as_slice())
}

fn write_entries<O: Sink>(lines: &mut Lines<'_, O>, worlds: &[Weighted]) -> Result<(), WriteFault>
    requires empty { text_of lines.old ≡ [] }
    requires short { AreShort (map entry_item worlds.now) }
    ensures { WroteItems O.Sink lines.old lines.new result (map entry_item worlds.now) }
{
    for entry in worlds {
        write_entry(lines, entry)?;
    }
    Ok(())
}

/// Writes a dual: its numbers, its rows, and its steps.
pub fn write_dual<O: Sink>(lines: &mut Lines<'_, O>, dual: &Dual) -> Result<(), WriteFault>
    requires empty { text_of lines.old ≡ [] }
    requires short { AreShort (dual_items dual.now) }
    ensures { WroteItems O.Sink lines.old lines.new result (dual_items dual.now) }
{
    write_dual_head(lines, &dual.top, &dual.head, dual.steps.len() as u64)?;
    write_rows_and_steps(lines, dual)
}

fn write_rows_and_steps<O: Sink>(lines: &mut Lines<'_, O>, dual: &Dual) -> Result<(), WriteFault>
    requires empty { text_of lines.old ≡ [] }
    requires short { AreShort (below_dual_head dual.now) }
    ensures { WroteItems O.Sink lines.old lines.new result (below_dual_head dual.now) }
{
    write_rows(lines, dual.rows.as_slice())?;
    write_steps(lines, dual.steps.as_slice())
}

/// Writes steps of a refutation, or of a search.
pub(crate) fn write_steps<O: Sink>(
    lines: &mut Lines<'_, O>,
    steps: &[Step],
) -> Result<(), WriteFault>
    requires empty { text_of lines.old ≡ [] }
    requires short { AreShort (map StepLine steps.now) }
    ensures { WroteItems O.Sink lines.old lines.new result (map StepLine steps.now) }
{
    for step in steps {
        write_step_line(lines, step)?;
    }
    Ok(())
}

/// Writes a trace: how many events it has, and each of them.
pub fn write_trace<O: Sink>(lines: &mut Lines<'_, O>, trace: &[Event]) -> Result<(), WriteFault>
    requires empty { text_of lines.old ≡ [] }
    requires short { AreShort (trace_items trace.now) }
    ensures { WroteItems O.Sink lines.old lines.new result (trace_items trace.now) }
{
    write_trace_head(lines, trace.len() as u64)?;
    write_events(lines, trace)
}

fn write_events<O: Sink>(lines: &mut Lines<'_, O>, trace: &[Event]) -> Result<(), WriteFault>
    requires empty { text_of lines.old ≡ [] }
    requires short { AreShort (map event_item trace.now) }
    ensures { WroteItems O.Sink lines.old lines.new result (map event_item trace.now) }
{
    for event in trace {
        write_event(lines, event)?;
    }
    Ok(())
}
