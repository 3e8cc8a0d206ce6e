//! Places of the solver as words of a line.
ghost use Rattle.std.specs.Prelude.{◌≤◌, ◌<◌, ◌+◌, [], ◌∷◌, length};
ghost use Rattle.ps_io.specs.LineText.{IsWord};
ghost use Rattle.ps_io.specs.Lines.{line_length};
ghost use Rattle.ps_answer.specs.Items.{count, place_words, shown_word};
ghost use Rattle.ps_answer.specs.Words.{Letters};
ghost use Rattle.ps_table.specs.declared.place.Place.TheVariants as place;
ghost use Rattle.ps_report.specs.Written.{AddsWords, cell_words, entry_words};

use crate::words::{LONGEST_COLUMN, add_column};
use ps_io::{LONGEST_LINE, Lines, Sink};
use ps_table::{Col, Place, TableCol};

/// A place has at most so many bytes, with the spaces before its words.
pub(crate) const LONGEST_PLACE: usize = 140;

/// The longest of the words that name places.
pub(crate) const LONGEST_NAME: usize = 12;

/// Adds a place to the line: its name, and its rows and columns.
pub(crate) fn add_place<O: Sink>(lines: &mut Lines<'_, O>, place: &Place)
    requires { line_length lines.old + LONGEST_PLACE < LONGEST_LINE }
    ensures line { AddsWords lines.old lines.new (place_words place.now) }
    ensures short { line_length lines.new ≤ line_length lines.old + LONGEST_PLACE }
{
    match place {
        Place::Ratio { row } => add_row(lines, b"ratio", *row),
        Place::Scale { col } => add_shown_at(lines, col),
        Place::Times { row, col } => add_cell(lines, b"times", *row, col),
        Place::Minus { row, col } => add_cell(lines, b"minus", *row, col),
        Place::Cost { col, row } => add_cost(lines, col, *row),
        Place::Whole { row } => add_row(lines, b"whole", *row),
        Place::Scaled { row } => add_row(lines, b"scaled", *row),
        Place::Weight { row } => add_row(lines, b"weight", *row),
        Place::Weighed { row } => add_row(lines, b"weighed", *row),
        Place::Total { row } => add_row(lines, b"total", *row),
        Place::PriceTimes { world, home } => add_price(lines, b"price-times", *world, *home),
        Place::PricePlus { world, home } => add_price(lines, b"price-plus", *world, *home),
        Place::ColumnTimes { world, row, home } => {
            add_entry(lines, b"column-times", *world, *row, *home)
        }
        Place::ColumnPlus { world, row, home } => {
            add_entry(lines, b"column-plus", *world, *row, *home)
        }
    }
}

fn add_row<O: Sink>(lines: &mut Lines<'_, O>, name: &[u8], row: u32)
    requires one_word { IsWord name.now }
    requires name { length name.now ≤ LONGEST_NAME }
    requires fits { line_length lines.old + LONGEST_PLACE < LONGEST_LINE }
    ensures line { AddsWords lines.old lines.new (Letters name.now ∷ count row ∷ []) }
    ensures short { line_length lines.new ≤ line_length lines.old + LONGEST_PLACE }
{
    lines.word(name);
    lines.number(row as i128);
}

// A place in the price of a world.
fn add_price<O: Sink>(lines: &mut Lines<'_, O>, name: &[u8], world: u32, home: u32)
    requires one_word { IsWord name.now }
    requires name { length name.now ≤ LONGEST_NAME }
    requires fits { line_length lines.old + LONGEST_PLACE < LONGEST_LINE }
    ensures line { AddsWords lines.old lines.new
        (Letters name.now ∷ count world ∷ count home ∷ []) }
    ensures short { line_length lines.new ≤ line_length lines.old + LONGEST_PLACE }
{
    lines.word(name);
    lines.number(world as i128);
    lines.number(home as i128);
}

// A place in an entry of a world's column.
fn add_entry<O: Sink>(lines: &mut Lines<'_, O>, name: &[u8], world: u32, row: u32, home: u32)
    requires one_word { IsWord name.now }
    requires name { length name.now ≤ LONGEST_NAME }
    requires fits { line_length lines.old + LONGEST_PLACE < LONGEST_LINE }
    ensures line { AddsWords lines.old lines.new (entry_words name.now world row home) }
    ensures short { line_length lines.new ≤ line_length lines.old + LONGEST_PLACE }
{
    lines.word(name);
    lines.number(world as i128);
    lines.number(row as i128);
    lines.number(home as i128);
}

fn add_cell<O: Sink>(lines: &mut Lines<'_, O>, name: &[u8], row: u32, col: &TableCol)
    requires one_word { IsWord name.now }
    requires name { length name.now ≤ LONGEST_NAME }
    requires fits { line_length lines.old + LONGEST_PLACE < LONGEST_LINE }
    ensures line { AddsWords lines.old lines.new (cell_words name.now row col.now) }
    ensures short { line_length lines.new ≤ line_length lines.old + LONGEST_PLACE }
{
    lines.word(name);
    lines.number(row as i128);
    add_shown(lines, col);
}

fn add_shown_at<O: Sink>(lines: &mut Lines<'_, O>, col: &TableCol)
    requires { line_length lines.old + LONGEST_PLACE < LONGEST_LINE }
    ensures line { AddsWords lines.old lines.new (place_words (place.Scale col.now)) }
    ensures short { line_length lines.new ≤ line_length lines.old + LONGEST_PLACE }
{
    lines.word(b"scale");
    add_shown(lines, col);
}

fn add_cost<O: Sink>(lines: &mut Lines<'_, O>, col: &Col, row: u32)
    requires { line_length lines.old + LONGEST_PLACE < LONGEST_LINE }
    ensures line { AddsWords lines.old lines.new (place_words (place.Cost col.now row)) }
    ensures short { line_length lines.new ≤ line_length lines.old + LONGEST_PLACE }
{
    lines.word(b"cost");
    add_column(lines, col);
    lines.number(row as i128);
}

// A column, or `r` for the right side.
fn add_shown<O: Sink>(lines: &mut Lines<'_, O>, col: &TableCol)
    requires { line_length lines.old + LONGEST_COLUMN < LONGEST_LINE }
    ensures line { AddsWords lines.old lines.new (shown_word col.now ∷ []) }
    ensures short { line_length lines.new ≤ line_length lines.old + LONGEST_COLUMN + 1 }
{
    match col {
        TableCol::Right => lines.word(b"r"),
        TableCol::Of(col) => add_column(lines, col),
    }
}
