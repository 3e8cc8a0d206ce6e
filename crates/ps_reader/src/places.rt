//! Places of the solver, behind their names.
ghost use Rattle.std.specs.Prelude.{◌∷◌, codes};
ghost use Rattle.ps_reader.specs.Cursor.{words_in};
ghost use Rattle.ps_reader.specs.Places.{IsFrontRead, IsPlaceRead, price_words, IsPriceWithin};
ghost use Rattle.ps_reader.specs.Places.{entry_words, IsEntryWithin};

use crate::kinds::{column, row, table_column, world_number};
use crate::line_fault::LineFault;
use crate::pairs::both;
use crate::words::Words;
use ps_table::Place;

/// The row behind `ratio`.
pub(crate) fn ratio(words: &mut Words<'_>) -> Result<Place, LineFault>
    ensures { IsPlaceRead (codes "ratio" ∷ words_in words.old) (words_in words.new) result }
{
    let row = row(words.next())?;
    Ok(Place::Ratio { row })
}

/// The column behind `scale`.
pub(crate) fn scale(words: &mut Words<'_>) -> Result<Place, LineFault>
    ensures { IsPlaceRead (codes "scale" ∷ words_in words.old) (words_in words.new) result }
{
    let col = table_column(words.next())?;
    Ok(Place::Scale { col })
}

/// The row and the column behind `times`.
pub(crate) fn times(words: &mut Words<'_>) -> Result<Place, LineFault>
    ensures { IsPlaceRead (codes "times" ∷ words_in words.old) (words_in words.new) result }
{
    let row = row(words.next());
    let col = table_column(words.next());
    let (row, col) = both(row, col)?;
    Ok(Place::Times { row, col })
}

/// The row and the column behind `minus`.
pub(crate) fn minus(words: &mut Words<'_>) -> Result<Place, LineFault>
    ensures { IsPlaceRead (codes "minus" ∷ words_in words.old) (words_in words.new) result }
{
    let row = row(words.next());
    let col = table_column(words.next());
    let (row, col) = both(row, col)?;
    Ok(Place::Minus { row, col })
}

/// The column and the row behind `cost`.
pub(crate) fn cost(words: &mut Words<'_>) -> Result<Place, LineFault>
    ensures { IsPlaceRead (codes "cost" ∷ words_in words.old) (words_in words.new) result }
{
    let col = column(words.next());
    let row = row(words.next());
    let (col, row) = both(col, row)?;
    Ok(Place::Cost { col, row })
}

/// The row behind `whole`.
pub(crate) fn whole(words: &mut Words<'_>) -> Result<Place, LineFault>
    ensures { IsPlaceRead (codes "whole" ∷ words_in words.old) (words_in words.new) result }
{
    let row = row(words.next())?;
    Ok(Place::Whole { row })
}

/// The row behind `scaled`.
pub(crate) fn scaled_row(words: &mut Words<'_>) -> Result<Place, LineFault>
    ensures { IsPlaceRead (codes "scaled" ∷ words_in words.old) (words_in words.new) result }
{
    let row = row(words.next())?;
    Ok(Place::Scaled { row })
}

/// The row behind `weight`.
pub(crate) fn weight(words: &mut Words<'_>) -> Result<Place, LineFault>
    ensures { IsPlaceRead (codes "weight" ∷ words_in words.old) (words_in words.new) result }
{
    let row = row(words.next())?;
    Ok(Place::Weight { row })
}

/// The row behind `weighed`.
pub(crate) fn weighed_row(words: &mut Words<'_>) -> Result<Place, LineFault>
    ensures { IsPlaceRead (codes "weighed" ∷ words_in words.old) (words_in words.new) result }
{
    let row = row(words.next())?;
    Ok(Place::Weighed { row })
}

/// The row behind `total`.
pub(crate) fn total(words: &mut Words<'_>) -> Result<Place, LineFault>
    ensures { IsPlaceRead (codes "total" ∷ words_in words.old) (words_in words.new) result }
{
    let row = row(words.next())?;
    Ok(Place::Total { row })
}

/// A world and a home.
fn world_and_home(words: &mut Words<'_>) -> Result<(u32, u32), LineFault>
    ensures { IsFrontRead price_words IsPriceWithin (words_in words.old) (words_in words.new)
        result }
{
    let world = world_number(words.next());
    let home = row(words.next());
    both(world, home)
}

/// A world, a row and a home.
fn world_row_and_home(words: &mut Words<'_>) -> Result<(u32, (u32, u32)), LineFault>
    ensures { IsFrontRead entry_words IsEntryWithin (words_in words.old) (words_in words.new)
        result }
{
    let world = world_number(words.next());
    let at = row(words.next());
    let home = row(words.next());
    both(world, both(at, home))
}

/// The world and the home behind `price-times`.
pub(crate) fn price_times(words: &mut Words<'_>) -> Result<Place, LineFault>
    ensures { IsPlaceRead (codes "price-times" ∷ words_in words.old) (words_in words.new) result }
{
    let (world, home) = world_and_home(words)?;
    Ok(Place::PriceTimes { world, home })
}

/// The world and the home behind `price-plus`.
pub(crate) fn price_plus(words: &mut Words<'_>) -> Result<Place, LineFault>
    ensures { IsPlaceRead (codes "price-plus" ∷ words_in words.old) (words_in words.new) result }
{
    let (world, home) = world_and_home(words)?;
    Ok(Place::PricePlus { world, home })
}

/// The world, the row and the home behind `column-times`.
pub(crate) fn column_times(words: &mut Words<'_>) -> Result<Place, LineFault>
    ensures { IsPlaceRead (codes "column-times" ∷ words_in words.old) (words_in words.new) result }
{
    let (world, (row, home)) = world_row_and_home(words)?;
    Ok(Place::ColumnTimes { world, row, home })
}

/// The world, the row and the home behind `column-plus`.
pub(crate) fn column_plus(words: &mut Words<'_>) -> Result<Place, LineFault>
    ensures { IsPlaceRead (codes "column-plus" ∷ words_in words.old) (words_in words.new) result }
{
    let (world, (row, home)) = world_row_and_home(words)?;
    Ok(Place::ColumnPlus { world, row, home })
}
