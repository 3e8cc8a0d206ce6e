//! Causes and verdicts.
ghost use Rattle.std.specs.Prelude.{◌≡◌, [], ◌∷◌};
ghost use Rattle.ps_answer.specs.Answers.{cause_items, verdict_items, model_items, dual_items};
ghost use Rattle.ps_answer.specs.declared.item.LineItem.TheVariants as line;
ghost use Rattle.ps_io.specs.Lines.{text_of};
ghost use Rattle.ps_report.specs.Parts.{WroteItems, AreShort, conflict_items, goal_items};
ghost use Rattle.ps_report.specs.Parts.{open_items, refuted_items};

use crate::ends::{write_consistent, write_inconsistent};
use crate::entries::write_goal_line;
use crate::open::{write_open_conflicts, write_open_pivots, write_open_wide};
use crate::parts::{write_dual, write_model, write_steps, write_trace};
use ps_answer::{Cause, Dual, Model, Verdict};
use ps_io::{Lines, Sink, WriteFault};
use ps_pb::{Constraint, Step};
use ps_table::Event;

/// Writes why a part is open.
pub fn write_cause<O: Sink>(lines: &mut Lines<'_, O>, cause: &Cause) -> Result<(), WriteFault>
    requires empty { text_of lines.old ≡ [] }
    requires short { AreShort (cause_items cause.now) }
    ensures { WroteItems O.Sink lines.old lines.new result (cause_items cause.now) }
{
    match cause {
        Cause::Pivots { limit } => write_open_pivots(lines, *limit),
        Cause::Conflicts { limit, goal, steps } => {
            write_conflicts(lines, *limit, goal, steps.as_slice())
        }
        Cause::Wide { at } => write_open_wide(lines, at),
    }
}

fn write_conflicts<O: Sink>(
    lines: &mut Lines<'_, O>,
    limit: u64,
    goal: &Constraint,
    steps: &[Step],
) -> Result<(), WriteFault>
    requires empty { text_of lines.old ≡ [] }
    requires short { AreShort (conflict_items limit goal.now steps.now) }
    ensures { WroteItems O.Sink lines.old lines.new result
        (conflict_items limit goal.now steps.now) }
{
    write_open_conflicts(lines, limit)?;
    write_goal_and_steps(lines, goal, steps)
}

fn write_goal_and_steps<O: Sink>(
    lines: &mut Lines<'_, O>,
    goal: &Constraint,
    steps: &[Step],
) -> Result<(), WriteFault>
    requires empty { text_of lines.old ≡ [] }
    requires short { AreShort (goal_items goal.now steps.now) }
    ensures { WroteItems O.Sink lines.old lines.new result (goal_items goal.now steps.now) }
{
    write_goal_line(lines, goal)?;
    write_steps(lines, steps)
}

/// Writes what is answered to a problem's sentences.
pub fn write_verdict<O: Sink>(lines: &mut Lines<'_, O>, verdict: &Verdict) -> Result<(), WriteFault>
    requires empty { text_of lines.old ≡ [] }
    requires short { AreShort (verdict_items verdict.now) }
    ensures { WroteItems O.Sink lines.old lines.new result (verdict_items verdict.now) }
{
    match verdict {
        Verdict::Consistent(model) => write_consistent_model(lines, model),
        Verdict::Inconsistent(dual) => write_inconsistent_dual(lines, dual),
        Verdict::Open(cause) => write_cause(lines, cause),
    }
}

fn write_consistent_model<O: Sink>(
    lines: &mut Lines<'_, O>,
    model: &Model,
) -> Result<(), WriteFault>
    requires empty { text_of lines.old ≡ [] }
    requires short { AreShort (line.Consistent ∷ model_items model.now) }
    ensures { WroteItems O.Sink lines.old lines.new result
        (line.Consistent ∷ model_items model.now) }
{
    write_consistent(lines)?;
    write_model(lines, model)
}

fn write_inconsistent_dual<O: Sink>(lines: &mut Lines<'_, O>, dual: &Dual) -> Result<(), WriteFault>
    requires empty { text_of lines.old ≡ [] }
    requires short { AreShort (line.Inconsistent ∷ dual_items dual.now) }
    ensures { WroteItems O.Sink lines.old lines.new result
        (line.Inconsistent ∷ dual_items dual.now) }
{
    write_inconsistent(lines)?;
    write_dual(lines, dual)
}

/// Writes why a part is open, and a trace.
pub(crate) fn write_cause_and_trace<O: Sink>(
    lines: &mut Lines<'_, O>,
    cause: &Cause,
    trace: &[Event],
) -> Result<(), WriteFault>
    requires empty { text_of lines.old ≡ [] }
    requires short { AreShort (open_items cause.now trace.now) }
    ensures { WroteItems O.Sink lines.old lines.new result (open_items cause.now trace.now) }
{
    write_cause(lines, cause)?;
    write_trace(lines, trace)
}

/// Writes a dual, and a trace.
pub(crate) fn write_dual_and_trace<O: Sink>(
    lines: &mut Lines<'_, O>,
    dual: &Dual,
    trace: &[Event],
) -> Result<(), WriteFault>
    requires empty { text_of lines.old ≡ [] }
    requires short { AreShort (refuted_items dual.now trace.now) }
    ensures { WroteItems O.Sink lines.old lines.new result (refuted_items dual.now trace.now) }
{
    write_dual(lines, dual)?;
    write_trace(lines, trace)
}
