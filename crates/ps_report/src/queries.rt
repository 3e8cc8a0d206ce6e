//! Queries.
ghost use Rattle.std.specs.Prelude.{◌≡◌, []};
ghost use Rattle.ps_answer.specs.Answers.{part_items, query_items};
ghost use Rattle.ps_io.specs.Lines.{text_of};
ghost use Rattle.ps_report.specs.Parts.{WroteItems, AreShort};
ghost use Rattle.ps_report.specs.Reports.{both_items, run_items, bounds_items};
ghost use Rattle.ps_report.specs.Reports.{impossible_items, numbered_items};

use crate::causes::{write_cause_and_trace, write_dual_and_trace};
use crate::ends::{write_bounds, write_impossible};
use crate::heads::write_query;
use crate::parts::write_trace;
use crate::sides::write_side;
use ps_answer::{Dual, QueryAnswer, QueryPart, SideAnswer};
use ps_io::{Lines, Sink, WriteFault};
use ps_table::Event;

/// What is answered to the two sides of a query, each with the events of its phase.
#[derive(Clone, Copy, Drop)]
struct Sides<'a> {
    lower: &'a SideAnswer,
    lower_trace: &'a [Event],
    upper: &'a SideAnswer,
    upper_trace: &'a [Event],
}

/// Writes what is answered to a query.
pub fn write_query_answer<O: Sink>(
    lines: &mut Lines<'_, O>,
    answer: &QueryAnswer,
    first: &[Event],
) -> Result<(), WriteFault>
    requires empty { text_of lines.old ≡ [] }
    requires short { AreShort (query_items answer.now first.now) }
    ensures { WroteItems O.Sink lines.old lines.new result (query_items answer.now first.now) }
{
    match answer {
        QueryAnswer::Bounds {
            lower,
            lower_trace,
            upper,
            upper_trace,
        } => {
            let sides = Sides {
                lower,
                lower_trace: lower_trace.as_slice(),
                upper,
                upper_trace: upper_trace.as_slice(),
            };
            write_bounds_answer(lines, first, &sides)
        }
        QueryAnswer::Impossible(dual) => write_impossible_dual(lines, dual, first),
        QueryAnswer::Open(cause) => write_cause_and_trace(lines, cause, first),
    }
}

fn write_impossible_dual<O: Sink>(
    lines: &mut Lines<'_, O>,
    dual: &Dual,
    first: &[Event],
) -> Result<(), WriteFault>
    requires empty { text_of lines.old ≡ [] }
    requires short { AreShort (impossible_items dual.now first.now) }
    ensures { WroteItems O.Sink lines.old lines.new result (impossible_items dual.now first.now) }
{
    write_impossible(lines)?;
    write_dual_and_trace(lines, dual, first)
}

fn write_bounds_answer<O: Sink>(
    lines: &mut Lines<'_, O>,
    first: &[Event],
    sides: &Sides<'_>,
) -> Result<(), WriteFault>
    requires empty { text_of lines.old ≡ [] }
    requires short { AreShort (bounds_items first.now sides.now) }
    ensures { WroteItems O.Sink lines.old lines.new result (bounds_items first.now sides.now) }
{
    write_bounds(lines)?;
    write_trace_and_sides(lines, first, sides)
}

fn write_trace_and_sides<O: Sink>(
    lines: &mut Lines<'_, O>,
    first: &[Event],
    sides: &Sides<'_>,
) -> Result<(), WriteFault>
    requires empty { text_of lines.old ≡ [] }
    requires short { AreShort (run_items first.now sides.now) }
    ensures { WroteItems O.Sink lines.old lines.new result (run_items first.now sides.now) }
{
    write_trace(lines, first)?;
    write_sides(lines, sides)
}

fn write_sides<O: Sink>(lines: &mut Lines<'_, O>, sides: &Sides<'_>) -> Result<(), WriteFault>
    requires empty { text_of lines.old ≡ [] }
    requires short { AreShort (both_items sides.now) }
    ensures { WroteItems O.Sink lines.old lines.new result (both_items sides.now) }
{
    write_side(lines, false, sides.lower, sides.lower_trace)?;
    write_side(lines, true, sides.upper, sides.upper_trace)
}

/// Writes what is answered to queries, each below its number, from 1.
pub fn write_parts<O: Sink>(lines: &mut Lines<'_, O>, parts: &[QueryPart]) -> Result<(), WriteFault>
    requires empty { text_of lines.old ≡ [] }
    requires short { AreShort (part_items 1 parts.now) }
    ensures { WroteItems O.Sink lines.old lines.new result (part_items 1 parts.now) }
{
    for (i, part) in parts.iter().enumerate() {
        write_part(lines, i as u64 + 1, part)?;
    }
    Ok(())
}

fn write_part<O: Sink>(
    lines: &mut Lines<'_, O>,
    number: u64,
    part: &QueryPart,
) -> Result<(), WriteFault>
    requires empty { text_of lines.old ≡ [] }
    requires short { AreShort (numbered_items number part.now) }
    ensures { WroteItems O.Sink lines.old lines.new result (numbered_items number part.now) }
{
    write_query(lines, number)?;
    write_query_answer(lines, &part.answer, part.first.as_slice())
}
