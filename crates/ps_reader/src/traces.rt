//! Traces that are read.
ghost use Rattle.std.specs.Prelude.{◌≡◌, ◌∷◌, [], map, length, IfOk};
ghost use Rattle.ps_answer.specs.Answers.{event_item, trace_items};
ghost use Rattle.ps_answer.specs.declared.item.LineItem.TheVariants as line;
ghost use Rattle.ps_answer.specs.declared.part.Part.TheVariants.{ATrace, AnEvent};
ghost use Rattle.ps_reader.specs.Taken.{IsLineRead, IsValueRead, repeated};

use crate::lines::Lines;
use ps_answer::{LineItem, Part, ReportError};
use ps_io::List;
use ps_table::{Event, Trace};

/// A trace: its head, and its events.
pub(crate) fn trace(lines: &mut Lines<'_>) -> Result<Trace, ReportError>
    ensures { IsValueRead trace_items (ATrace ∷ []) lines.old lines.new result }
{
    let count = trace_head(lines)?;
    events(lines, count)
}

fn trace_head(lines: &mut Lines<'_>) -> Result<u64, ReportError>
    ensures { IsLineRead (λ n. line.TraceHead n) ATrace lines.old lines.new result }
{
    match lines.take(Part::ATrace)? {
        LineItem::TraceHead { count } => Ok(count),
        _ => unreachable!(),
    }
}

fn events(lines: &mut Lines<'_>, count: u64) -> Result<Trace, ReportError>
    ensures events { IsValueRead (map event_item) (repeated count AnEvent) lines.old lines.new
        result }
    ensures count { IfOk result (λ es. length es ≡ count) }
{
    let mut events = List::new(lines.alloc());
    for _ in 0..count {
        events.push(event(lines)?)?;
    }
    Ok(events)
}

fn event(lines: &mut Lines<'_>) -> Result<Event, ReportError>
    ensures { IsLineRead event_item AnEvent lines.old lines.new result }
{
    match lines.take(Part::AnEvent)? {
        LineItem::PivotLine { enter, leave } => Ok(Event::Pivot { enter, leave }),
        LineItem::PricedLine { world } => Ok(Event::Priced { world }),
        _ => unreachable!(),
    }
}
