//! Models and duals that are read.
ghost use Rattle.std.specs.Prelude.{◌≡◌, ◌∷◌, [], map, length, IfOk};
ghost use Rattle.ps_answer.specs.Answers.{entry_item, model_items, dual_items};
ghost use Rattle.ps_answer.specs.declared.item.LineItem.TheVariants as line;
ghost use Rattle.ps_answer.specs.declared.part.Part.TheVariants.{AModel, AnEntry, ADual, SomeRows, AStep};
ghost use Rattle.ps_reader.specs.Taken.{IsLineRead, IsValueRead, repeated};

use crate::lines::Lines;
use ps_answer::{Dual, LineItem, Model, Multipliers, Part, ReportError, Weighted, Worlds};
use ps_io::List;
use ps_pb::{Step, Steps};

/// A model: its head, and its worlds.
pub(crate) fn model(lines: &mut Lines<'_>) -> Result<Model, ReportError>
    ensures { IsValueRead model_items (AModel ∷ []) lines.old lines.new result }
{
    let (total, count) = model_head(lines)?;
    let worlds = entries(lines, count)?;
    Ok(Model { total, worlds })
}

fn model_head(lines: &mut Lines<'_>) -> Result<(i128, u64), ReportError>
    ensures { IsLineRead (λ h. line.ModelHead h.0 h.1) AModel lines.old lines.new result }
{
    match lines.take(Part::AModel)? {
        LineItem::ModelHead { total, count } => Ok((total, count)),
        _ => unreachable!(),
    }
}

fn entries(lines: &mut Lines<'_>, count: u64) -> Result<Worlds, ReportError>
    ensures worlds { IsValueRead (map entry_item) (repeated count AnEntry) lines.old lines.new
        result }
    ensures count { IfOk result (λ ws. length ws ≡ count) }
{
    let mut worlds = List::new(lines.alloc());
    for _ in 0..count {
        worlds.push(entry(lines)?)?;
    }
    Ok(worlds)
}

fn entry(lines: &mut Lines<'_>) -> Result<Weighted, ReportError>
    ensures { IsLineRead entry_item AnEntry lines.old lines.new result }
{
    match lines.take(Part::AnEntry)? {
        LineItem::Entry { weight, world } => Ok(Weighted { weight, world }),
        _ => unreachable!(),
    }
}

/// A dual: its head, its multipliers, and its steps.
pub(crate) fn dual(lines: &mut Lines<'_>) -> Result<Dual, ReportError>
    ensures { IsValueRead dual_items (ADual ∷ []) lines.old lines.new result }
{
    let (top, head, count) = dual_head(lines)?;
    let rows = rows(lines)?;
    let steps = steps(lines, count)?;
    Ok(Dual {
        top,
        head,
        rows,
        steps,
    })
}

fn dual_head(lines: &mut Lines<'_>) -> Result<(i128, i128, u64), ReportError>
    ensures { IsLineRead (λ h. line.DualHead h.0 h.1 h.2) ADual lines.old lines.new result }
{
    match lines.take(Part::ADual)? {
        LineItem::DualHead { top, head, count } => Ok((top, head, count)),
        _ => unreachable!(),
    }
}

fn rows(lines: &mut Lines<'_>) -> Result<Multipliers, ReportError>
    ensures { IsLineRead (λ zs. line.Rows zs) SomeRows lines.old lines.new result }
{
    match lines.take(Part::SomeRows)? {
        LineItem::Rows { rows } => Ok(rows),
        _ => unreachable!(),
    }
}

/// So many steps.
pub(crate) fn steps(lines: &mut Lines<'_>, count: u64) -> Result<Steps, ReportError>
    ensures steps { IsValueRead (map line.StepLine) (repeated count AStep) lines.old lines.new
        result }
    ensures count { IfOk result (λ ss. length ss ≡ count) }
{
    let mut steps = List::new(lines.alloc());
    for _ in 0..count {
        steps.push(step(lines)?)?;
    }
    Ok(steps)
}

fn step(lines: &mut Lines<'_>) -> Result<Step, ReportError>
    ensures { IsLineRead (λ s. line.StepLine s) AStep lines.old lines.new result }
{
    match lines.take(Part::AStep)? {
        LineItem::StepLine { step } => Ok(step),
        _ => unreachable!(),
    }
}
