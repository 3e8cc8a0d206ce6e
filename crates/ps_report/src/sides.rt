//! Sides of a query.
ghost use Rattle.std.specs.Prelude.{◌≡◌, []};
ghost use Rattle.ps_answer.specs.Answers.{side_items};
ghost use Rattle.ps_io.specs.Lines.{text_of};
ghost use Rattle.ps_report.specs.Parts.{WroteItems, AreShort, proved_items};

use crate::causes::{write_cause_and_trace, write_dual_and_trace};
use crate::open::{write_bound, write_open_side};
use crate::parts::write_model;
use ps_answer::{Dual, Model, SideAnswer};
use ps_io::{Lines, Sink, WriteFault};
use ps_table::Event;

/// Writes what is answered to one side of a query, and its trace.
pub fn write_side<O: Sink>(
    lines: &mut Lines<'_, O>,
    upper: bool,
    side: &SideAnswer,
    trace: &[Event],
) -> Result<(), WriteFault>
    requires empty { text_of lines.old ≡ [] }
    requires short { AreShort (side_items upper side.now trace.now) }
    ensures { WroteItems O.Sink lines.old lines.new result (side_items upper side.now trace.now) }
{
    match side {
        SideAnswer::Bound { value, model, dual } => {
            write_bound(lines, upper, value)?;
            write_proved(lines, model, dual, trace)
        }
        SideAnswer::Open(cause) => {
            write_open_side(lines, upper)?;
            write_cause_and_trace(lines, cause, trace)
        }
    }
}

fn write_proved<O: Sink>(
    lines: &mut Lines<'_, O>,
    model: &Model,
    dual: &Dual,
    trace: &[Event],
) -> Result<(), WriteFault>
    requires empty { text_of lines.old ≡ [] }
    requires short { AreShort (proved_items model.now dual.now trace.now) }
    ensures { WroteItems O.Sink lines.old lines.new result
        (proved_items model.now dual.now trace.now) }
{
    write_model(lines, model)?;
    write_dual_and_trace(lines, dual, trace)
}
