//! Lines of models, duals and traces.
ghost use Rattle.std.specs.Prelude.{◌∷◌, codes};
ghost use Rattle.ps_answer.specs.declared.part.Part.TheVariants.{AReport, AModel, AnEntry, ADual, SomeRows, ATrace, AnEvent};
ghost use Rattle.ps_reader.specs.Cursor.{words_in};
ghost use Rattle.ps_reader.specs.Read.{IsItemRead};

use crate::kinds::{amount, column, count, number, row, version};
use crate::line_fault::LineFault;
use crate::pairs::both;
use crate::rows::rows;
use crate::truths::world;
use crate::words::Words;
use ps_answer::{LineItem, MOST_DUAL_STEPS, MOST_ENTRIES, MOST_EVENTS};
use std::alloc::Global;

/// The words behind `report`.
pub(crate) fn report(words: &mut Words<'_>) -> Result<LineItem, LineFault>
    ensures { IsItemRead AReport (codes "report" ∷ words_in words.old) result }
{
    let version = version(words.next());
    both(version, words.end())?;
    Ok(LineItem::Report)
}

/// The words behind `model`.
pub(crate) fn model(words: &mut Words<'_>) -> Result<LineItem, LineFault>
    ensures { IsItemRead AModel (codes "model" ∷ words_in words.old) result }
{
    let total = amount(words.next());
    let count = count(words.next(), MOST_ENTRIES);
    let (total, (count, ())) = both(total, both(count, words.end()))?;
    Ok(LineItem::ModelHead { total, count })
}

/// The words behind `w`.
pub(crate) fn entry(alloc: Global, words: &mut Words<'_>) -> Result<LineItem, LineFault>
    ensures { IsItemRead AnEntry (codes "w" ∷ words_in words.old) result }
{
    let weight = amount(words.next());
    let world = world(alloc, words.next());
    let (weight, (world, ())) = both(weight, both(world, words.end()))?;
    Ok(LineItem::Entry { weight, world })
}

/// The words behind `dual`.
pub(crate) fn dual(words: &mut Words<'_>) -> Result<LineItem, LineFault>
    ensures { IsItemRead ADual (codes "dual" ∷ words_in words.old) result }
{
    let top = amount(words.next());
    let head = number(words.next());
    let count = count(words.next(), MOST_DUAL_STEPS);
    let (top, (head, (count, ()))) = both(top, both(head, both(count, words.end())))?;
    Ok(LineItem::DualHead { top, head, count })
}

/// The words behind `y`.
pub(crate) fn multipliers(alloc: Global, words: &Words<'_>) -> Result<LineItem, LineFault>
    ensures { IsItemRead SomeRows (codes "y" ∷ words_in words.now) result }
{
    let rows = rows(alloc, words)?;
    Ok(LineItem::Rows { rows })
}

/// The words behind `t`.
pub(crate) fn trace(words: &mut Words<'_>) -> Result<LineItem, LineFault>
    ensures { IsItemRead ATrace (codes "t" ∷ words_in words.old) result }
{
    let count = count(words.next(), MOST_EVENTS);
    let (count, ()) = both(count, words.end())?;
    Ok(LineItem::TraceHead { count })
}

/// The words behind `p`.
pub(crate) fn pivot(words: &mut Words<'_>) -> Result<LineItem, LineFault>
    ensures { IsItemRead AnEvent (codes "p" ∷ words_in words.old) result }
{
    let enter = column(words.next());
    let leave = row(words.next());
    let (enter, (leave, ())) = both(enter, both(leave, words.end()))?;
    Ok(LineItem::PivotLine { enter, leave })
}

/// The words behind `c`.
pub(crate) fn priced_world(alloc: Global, words: &mut Words<'_>) -> Result<LineItem, LineFault>
    ensures { IsItemRead AnEvent (codes "c" ∷ words_in words.old) result }
{
    let world = world(alloc, words.next());
    let (world, ()) = both(world, words.end())?;
    Ok(LineItem::PricedLine { world })
}
