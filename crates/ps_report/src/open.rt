//! Lines of parts that are open, and of values.
ghost use Rattle.std.specs.Prelude.{◌≡◌, ◌≤◌, ◌*◌, ◌++◌, [], ◌∷◌, length};
ghost use Rattle.ps_answer.specs.declared.item.LineItem.TheVariants.{OpenPivots, OpenConflicts};
ghost use Rattle.ps_answer.specs.declared.item.LineItem.TheVariants.{OpenSide};
ghost use Rattle.ps_answer.specs.Items.{item_line, count};
ghost use Rattle.ps_answer.specs.Words.{joined};
ghost use Rattle.ps_io.specs.LineText.{IsWord};
ghost use Rattle.ps_io.specs.Lines.{text_of, line_length};
ghost use Rattle.ps_log.specs.Lines.{HoldsLine};
ghost use Rattle.ps_report.specs.Written.{WroteItem, AddsWords, bound_item, wide_item};
ghost use Rattle.ps_report.specs.Written.{open_words, operation_words};

use crate::ends::end_line;
use crate::place::{LONGEST_NAME, LONGEST_PLACE, add_place};
use crate::words::{add_fraction, add_op, add_side};
use ps_frac::Fraction;
use ps_io::{Lines, Sink, WriteFault};
use ps_table::WideAt;

/// Writes that so many pivots were used up.
pub fn write_open_pivots<O: Sink>(lines: &mut Lines<'_, O>, limit: u64) -> Result<(), WriteFault>
    requires { text_of lines.old ≡ [] }
    ensures { WroteItem O.Sink lines.old lines.new result (OpenPivots limit) }
{
    add_open_limit(lines, b"pivots", limit);
    end_line(lines)
}

/// Writes that so many conflicts were used up; the goal and the steps are lines of their own.
pub fn write_open_conflicts<O: Sink>(lines: &mut Lines<'_, O>, limit: u64) -> Result<(), WriteFault>
    requires { text_of lines.old ≡ [] }
    ensures { WroteItem O.Sink lines.old lines.new result (OpenConflicts limit) }
{
    add_open_limit(lines, b"conflicts", limit);
    end_line(lines)
}

/// Writes an operation that was refused: its place, its word, and its operands.
pub fn write_open_wide<O: Sink>(lines: &mut Lines<'_, O>, at: &WideAt) -> Result<(), WriteFault>
    requires { text_of lines.old ≡ [] }
    ensures { WroteItem O.Sink lines.old lines.new result (wide_item at.now) }
{
    add_wide(lines, at);
    end_line(lines)
}

/// Writes that a side of a query is open.
pub fn write_open_side<O: Sink>(lines: &mut Lines<'_, O>, upper: bool) -> Result<(), WriteFault>
    requires { text_of lines.old ≡ [] }
    ensures { WroteItem O.Sink lines.old lines.new result (OpenSide upper) }
{
    add_side(lines, upper);
    end_line(lines)
}

/// Writes the value of a side of a query.
pub fn write_bound<O: Sink>(
    lines: &mut Lines<'_, O>,
    upper: bool,
    value: &Fraction,
) -> Result<(), WriteFault>
    requires { text_of lines.old ≡ [] }
    ensures { WroteItem O.Sink lines.old lines.new result (bound_item upper value.now) }
{
    add_bound(lines, upper, value);
    end_line(lines)
}

fn add_bound<O: Sink>(lines: &mut Lines<'_, O>, upper: bool, value: &Fraction)
    requires { text_of lines.old ≡ [] }
    ensures { HoldsLine lines.old lines.new (item_line (bound_item upper value.now)) }
{
    add_side(lines, upper);
    add_fraction(lines, value);
}

// `open`, and why.
fn add_open<O: Sink>(lines: &mut Lines<'_, O>, name: &[u8])
    requires empty { text_of lines.old ≡ [] }
    requires one_word { IsWord name.now }
    requires name { length name.now ≤ LONGEST_NAME }
    ensures line { HoldsLine lines.old lines.new (joined (open_words name.now)) }
    ensures short { line_length lines.new ≤ LONGEST_PLACE }
{
    lines.word(b"open");
    lines.word(name);
}

// `open`, why, and a limit.
fn add_open_limit<O: Sink>(lines: &mut Lines<'_, O>, name: &[u8], limit: u64)
    requires empty { text_of lines.old ≡ [] }
    requires one_word { IsWord name.now }
    requires name { length name.now ≤ LONGEST_NAME }
    ensures { HoldsLine lines.old lines.new (joined (open_words name.now ++ count limit ∷ [])) }
{
    add_open(lines, name);
    lines.number(limit as i128);
}

fn add_wide<O: Sink>(lines: &mut Lines<'_, O>, at: &WideAt)
    requires { text_of lines.old ≡ [] }
    ensures { HoldsLine lines.old lines.new (item_line (wide_item at.now)) }
{
    add_open(lines, b"wide");
    add_place(lines, &at.place);
    add_operation(lines, at);
}

// The operation and its operands.
fn add_operation<O: Sink>(lines: &mut Lines<'_, O>, at: &WideAt)
    requires { line_length lines.old ≤ 2 * LONGEST_PLACE }
    ensures { AddsWords lines.old lines.new (operation_words at.now) }
{
    add_op(lines, &at.op);
    add_fraction(lines, &at.left);
    add_fraction(lines, &at.right);
}
