//! Lines of models, duals and traces below their heads.
ghost use Rattle.std.specs.Prelude.{◌≡◌, ◌<◌, [], ◌∷◌, codes};
ghost use Rattle.ps_answer.specs.Answers.{entry_item, event_item};
ghost use Rattle.ps_answer.specs.declared.item.LineItem.TheVariants.{Rows, StepLine, GoalLine};
ghost use Rattle.ps_answer.specs.declared.item.LineItem.TheVariants.{PivotLine, PricedLine};
ghost use Rattle.ps_answer.specs.Items.{item_line};
ghost use Rattle.ps_io.specs.Lines.{text_of};
ghost use Rattle.ps_log.specs.Lines.{HoldsLine, AddsNumbers, length_with};
ghost use Rattle.ps_report.specs.Written.{WroteItem, IsShort};

use crate::ends::end_line;
use crate::words::{add_column, add_world};
use ps_answer::Weighted;
use ps_formula::World;
use ps_io::{LONGEST_LINE, Lines, Sink, WriteFault};
use ps_log::{add_number, write_goal, write_step};
use ps_pb::{Constraint, Step};
use ps_table::{Col, Event};

/// Writes a world of a model, with its weight.
pub fn write_entry<O: Sink>(lines: &mut Lines<'_, O>, entry: &Weighted) -> Result<(), WriteFault>
    requires empty { text_of lines.old ≡ [] }
    requires short { IsShort (entry_item entry.now) }
    ensures { WroteItem O.Sink lines.old lines.new result (entry_item entry.now) }
{
    add_entry(lines, entry);
    end_line(lines)
}

fn add_entry<O: Sink>(lines: &mut Lines<'_, O>, entry: &Weighted)
    requires empty { text_of lines.old ≡ [] }
    requires short { IsShort (entry_item entry.now) }
    ensures { HoldsLine lines.old lines.new (item_line (entry_item entry.now)) }
{
    lines.word(b"w");
    lines.number(entry.weight);
    add_world(lines, &entry.world);
}

/// Writes the multipliers of a dual.
pub fn write_rows<O: Sink>(lines: &mut Lines<'_, O>, rows: &[i128]) -> Result<(), WriteFault>
    requires empty { text_of lines.old ≡ [] }
    requires short { IsShort (Rows rows.now) }
    ensures { WroteItem O.Sink lines.old lines.new result (Rows rows.now) }
{
    add_rows(lines, rows);
    end_line(lines)
}

fn add_rows<O: Sink>(lines: &mut Lines<'_, O>, rows: &[i128])
    requires empty { text_of lines.old ≡ [] }
    requires short { IsShort (Rows rows.now) }
    ensures { HoldsLine lines.old lines.new (item_line (Rows rows.now)) }
{
    begin_rows(lines);
    add_numbers(lines, rows);
}

fn begin_rows<O: Sink>(lines: &mut Lines<'_, O>)
    requires { text_of lines.old ≡ [] }
    ensures { HoldsLine lines.old lines.new (codes "y") }
{
    lines.word(b"y");
}

fn add_numbers<O: Sink>(lines: &mut Lines<'_, O>, numbers: &[i128])
    requires { length_with lines.old numbers.now < LONGEST_LINE }
    ensures { AddsNumbers lines.old lines.new numbers.now }
{
    for number in numbers {
        add_multiplier(lines, number);
    }
}

fn add_multiplier<O: Sink>(lines: &mut Lines<'_, O>, number: &i128)
    requires { length_with lines.old (number.now ∷ []) < LONGEST_LINE }
    ensures { AddsNumbers lines.old lines.new (number.now ∷ []) }
{
    add_number(lines, *number);
}

/// Writes a step of a refutation.
#[tactic(auto, using(crate::proofs::Made::step_item))]
pub fn write_step_line<O: Sink>(lines: &mut Lines<'_, O>, step: &Step) -> Result<(), WriteFault>
    requires empty { text_of lines.old ≡ [] }
    requires short { IsShort (StepLine step.now) }
    ensures { WroteItem O.Sink lines.old lines.new result (StepLine step.now) }
{
    write_step(lines, step)
}

/// Writes the goal of a search.
#[tactic(auto, using(crate::proofs::Made::goal_item))]
pub fn write_goal_line<O: Sink>(
    lines: &mut Lines<'_, O>,
    goal: &Constraint,
) -> Result<(), WriteFault>
    requires empty { text_of lines.old ≡ [] }
    requires short { IsShort (GoalLine goal.now) }
    ensures { WroteItem O.Sink lines.old lines.new result (GoalLine goal.now) }
{
    write_goal(lines, goal)
}

/// Writes an event of a run.
pub fn write_event<O: Sink>(lines: &mut Lines<'_, O>, event: &Event) -> Result<(), WriteFault>
    requires empty { text_of lines.old ≡ [] }
    requires short { IsShort (event_item event.now) }
    ensures { WroteItem O.Sink lines.old lines.new result (event_item event.now) }
{
    add_event(lines, event);
    end_line(lines)
}

fn add_event<O: Sink>(lines: &mut Lines<'_, O>, event: &Event)
    requires empty { text_of lines.old ≡ [] }
    requires short { IsShort (event_item event.now) }
    ensures { HoldsLine lines.old lines.new (item_line (event_item event.now)) }
{
    match event {
        Event::Pivot { enter, leave } => add_pivot(lines, enter, *leave),
        Event::Priced { world } => add_priced(lines, world),
    }
}

fn add_pivot<O: Sink>(lines: &mut Lines<'_, O>, enter: &Col, leave: u32)
    requires { text_of lines.old ≡ [] }
    ensures { HoldsLine lines.old lines.new (item_line (PivotLine enter.now leave)) }
{
    lines.word(b"p");
    add_column(lines, enter);
    lines.number(leave as i128);
}

fn add_priced<O: Sink>(lines: &mut Lines<'_, O>, world: &World)
    requires empty { text_of lines.old ≡ [] }
    requires short { IsShort (PricedLine world.now) }
    ensures { HoldsLine lines.old lines.new (item_line (PricedLine world.now)) }
{
    lines.word(b"c");
    add_world(lines, world);
}
