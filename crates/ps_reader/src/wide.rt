//! Lines of operations that were refused.
ghost use Rattle.std.specs.Prelude.{◌∷◌, codes};
ghost use Rattle.ps_answer.specs.declared.part.Part.TheVariants.{ACause};
ghost use Rattle.ps_reader.specs.Cursor.{words_in};
ghost use Rattle.ps_reader.specs.Places.{IsPlaceRead, IsBesideTable, IsPrintedPlace};
ghost use Rattle.ps_reader.specs.Read.{IsItemRead};

use crate::kinds::op;
use crate::line_fault::LineFault;
use crate::pairs::both;
use crate::places::{
    column_plus, column_times, cost, minus, price_plus, price_times, ratio, scale, scaled_row,
    times, total, weighed_row, weight, whole,
};
use crate::ratio::operand;
use crate::words::{Words, is};
use ps_answer::LineItem;
use ps_table::Place;

/// The words behind `open wide`.
pub(crate) fn open_wide(words: &mut Words<'_>) -> Result<LineItem, LineFault>
    ensures { IsItemRead ACause (codes "open" ∷ codes "wide" ∷ words_in words.old) result }
{
    let place = place(words);
    let op = op(words.next());
    let left = operand(words.next());
    let right = operand(words.next());
    let rest = both(op, both(left, both(right, words.end())));
    let (place, (op, (left, (right, ())))) = both(place, rest)?;
    Ok(LineItem::OpenWide {
        place,
        op,
        left,
        right,
    })
}

// A place of the solver: its name, and one word to three.
fn place(words: &mut Words<'_>) -> Result<Place, LineFault>
    ensures { IsPlaceRead (words_in words.old) (words_in words.new) result }
{
    let name = words.next();
    if is(name, b"ratio") {
        return ratio(words);
    }
    if is(name, b"scale") {
        return scale(words);
    }
    if is(name, b"times") {
        return times(words);
    }
    if is(name, b"minus") {
        return minus(words);
    }
    if is(name, b"cost") {
        return cost(words);
    }
    place_of_world(name, words)
}

// A place in the price of a world or in its column.
fn place_of_world(name: &[u8], words: &mut Words<'_>) -> Result<Place, LineFault>
    requires { IsBesideTable name.now }
    ensures { IsPlaceRead (name.now ∷ words_in words.old) (words_in words.new) result }
{
    if is(name, b"price-times") {
        return price_times(words);
    }
    if is(name, b"price-plus") {
        return price_plus(words);
    }
    if is(name, b"column-times") {
        return column_times(words);
    }
    if is(name, b"column-plus") {
        return column_plus(words);
    }
    place_of_value(name, words)
}

// A place of one of the numbers that are printed.
fn place_of_value(name: &[u8], words: &mut Words<'_>) -> Result<Place, LineFault>
    requires { IsPrintedPlace name.now }
    ensures { IsPlaceRead (name.now ∷ words_in words.old) (words_in words.new) result }
{
    if is(name, b"whole") {
        return whole(words);
    }
    if is(name, b"scaled") {
        return scaled_row(words);
    }
    if is(name, b"weight") {
        return weight(words);
    }
    if is(name, b"weighed") {
        return weighed_row(words);
    }
    if is(name, b"total") {
        return total(words);
    }
    Err(LineFault::NotCanonical)
}
