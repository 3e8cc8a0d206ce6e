//! Answers that are read.
ghost use Rattle.std.specs.Prelude.{◌≡◌, ◌∷◌, [], map, length, IfOk};
ghost use Rattle.ps_max_text.specs.Answered.{max_items, body_items, best_items, log_items};
ghost use Rattle.ps_max_text.specs.Faults.{IsMaxRead};
ghost use Rattle.ps_max_text.specs.Parts.{at_start};
ghost use Rattle.ps_max_text.specs.Taken.{IsLineRead, IsValueRead, IsRestRead, just_steps};
ghost use Rattle.ps_max_text.specs.declared.item.MaxItem.TheVariants as line;
ghost use Rattle.ps_max_text.specs.declared.part.MaxPart.TheVariants as part;

use crate::item::MaxItem;
use crate::lines::Lines;
use crate::part::MaxPart;
use ps_answer::ReportError;
use ps_formula::World;
use ps_io::List;
use ps_max_answer::MaxAnswer;
use ps_pb::{Constraint, Step, Steps};
use std::alloc::Global;

/// Reads the text of an answer, or tells the first line at fault by its kind and its number from 1.
/// Memory lacks only at a line for which it is taken, where none before it is at fault.
pub fn read_max(alloc: Global, bytes: &[u8]) -> Result<MaxAnswer, ReportError>
    ensures { IsMaxRead bytes.now result }
{
    let mut lines = Lines::of(alloc, bytes);
    let answer = answer(&mut lines)?;
    lines.end()?;
    Ok(answer)
}

fn answer(lines: &mut Lines<'_>) -> Result<MaxAnswer, ReportError>
    ensures { IsValueRead max_items at_start lines.old lines.new result }
{
    lines.take(MaxPart::Head)?;
    let answer = body(lines)?;
    lines.take(MaxPart::End)?;
    Ok(answer)
}

// The lines between the first and the last.
fn body(lines: &mut Lines<'_>) -> Result<MaxAnswer, ReportError>
    ensures { IsValueRead body_items (part.Answer ∷ []) lines.old lines.new result }
{
    match lines.take(MaxPart::Answer)? {
        MaxItem::Optimum { cost } => optimum(lines, cost),
        MaxItem::Unsatisfiable => unsatisfiable(lines),
        MaxItem::OpenConflicts { limit, count } => open(lines, limit, count),
        _ => unreachable!(),
    }
}

fn optimum(lines: &mut Lines<'_>, cost: i128) -> Result<MaxAnswer, ReportError>
    ensures { IsRestRead body_items (line.Optimum cost) lines.old lines.new result }
{
    let assignment = values(lines)?;
    let steps = log(lines)?;
    Ok(MaxAnswer::Optimum {
        cost,
        assignment,
        steps,
    })
}

fn unsatisfiable(lines: &mut Lines<'_>) -> Result<MaxAnswer, ReportError>
    ensures { IsRestRead body_items line.Unsatisfiable lines.old lines.new result }
{
    let steps = log(lines)?;
    Ok(MaxAnswer::Unsatisfiable { steps })
}

fn open(lines: &mut Lines<'_>, limit: u64, count: u64) -> Result<MaxAnswer, ReportError>
    ensures { IsRestRead body_items (line.OpenConflicts limit count) lines.old lines.new result }
{
    let goal = goal(lines)?;
    let steps = steps(lines, count)?;
    let best = best(lines)?;
    Ok(MaxAnswer::Open {
        limit,
        goal,
        steps,
        best,
    })
}

fn values(lines: &mut Lines<'_>) -> Result<World, ReportError>
    ensures { IsLineRead (λ w. line.Values w) part.Values lines.old lines.new result }
{
    match lines.take(MaxPart::Values)? {
        MaxItem::Values { values } => Ok(values),
        _ => unreachable!(),
    }
}

fn best(lines: &mut Lines<'_>) -> Result<Option<(i128, World)>, ReportError>
    ensures { IsValueRead best_items (part.Best ∷ []) lines.old lines.new result }
{
    match lines.take(MaxPart::Best)? {
        MaxItem::NoBest => Ok(None),
        MaxItem::Best { cost } => best_of(lines, cost),
        _ => unreachable!(),
    }
}

// The assignment of this cost.
fn best_of(lines: &mut Lines<'_>, cost: i128) -> Result<Option<(i128, World)>, ReportError>
    ensures { IsRestRead best_items (line.Best cost) lines.old lines.new result }
{
    let assignment = values(lines)?;
    Ok(Some((cost, assignment)))
}

fn goal(lines: &mut Lines<'_>) -> Result<Constraint, ReportError>
    ensures { IsLineRead (λ g. line.GoalLine g) part.Goal lines.old lines.new result }
{
    match lines.take(MaxPart::Goal)? {
        MaxItem::GoalLine { goal } => Ok(goal),
        _ => unreachable!(),
    }
}

// How many steps there are, and each of them.
fn log(lines: &mut Lines<'_>) -> Result<Steps, ReportError>
    ensures { IsValueRead log_items (part.Log ∷ []) lines.old lines.new result }
{
    let count = log_head(lines)?;
    steps(lines, count)
}

fn log_head(lines: &mut Lines<'_>) -> Result<u64, ReportError>
    ensures { IsLineRead (λ n. line.LogHead n) part.Log lines.old lines.new result }
{
    match lines.take(MaxPart::Log)? {
        MaxItem::LogHead { count } => Ok(count),
        _ => unreachable!(),
    }
}

fn steps(lines: &mut Lines<'_>, count: u64) -> Result<Steps, ReportError>
    ensures steps { IsValueRead (map line.StepLine) (just_steps count) lines.old lines.new result }
    ensures count { IfOk result (λ ss. length ss ≡ count) }
{
    let mut steps = List::new(lines.alloc());
    for _ in 0..count {
        steps.push(step(lines)?)?;
    }
    Ok(steps)
}

fn step(lines: &mut Lines<'_>) -> Result<Step, ReportError>
    ensures { IsLineRead (λ s. line.StepLine s) part.Step lines.old lines.new result }
{
    match lines.take(MaxPart::Step)? {
        MaxItem::StepLine { step } => Ok(step),
        _ => unreachable!(),
    }
}
