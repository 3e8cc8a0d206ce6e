//! Lines of verdicts, queries and sides.
ghost use Rattle.std.specs.Prelude.{◌≡◌, ◌∷◌, true, bytes_eq, codes, ℕ};
ghost use Rattle.std.specs.List.{list_any};
ghost use Rattle.ps_answer.specs.ExpectedParts.{first_words};
ghost use Rattle.ps_answer.specs.declared.part.Part.TheVariants as part;
ghost use Rattle.ps_reader.specs.Cursor.{words_in};
ghost use Rattle.ps_reader.specs.Read.{IsItemRead};
ghost use Rattle.ps_answer.specs.Words.{side_letters};

use crate::heads::{pivot, priced_world};
use crate::kinds::{count, query_number};
use crate::line_fault::LineFault;
use crate::pairs::both;
use crate::ratio::value;
use crate::wide::open_wide;
use crate::words::{Words, is};
use ps_answer::{LineItem, MOST_CONFLICTS, MOST_PIVOTS};
use std::alloc::Global;

/// A verdict's words.
pub(crate) fn verdict(word: &[u8], words: &mut Words<'_>) -> Result<LineItem, LineFault>
    requires { list_any (λ w. bytes_eq word.now w) (first_words part.AVerdict) ≡ true }
    ensures { IsItemRead part.AVerdict (word.now ∷ words_in words.old) result }
{
    if is(word, b"consistent") {
        return consistent(words);
    }
    if is(word, b"inconsistent") {
        return inconsistent(words);
    }
    cause(words)
}

fn consistent(words: &Words<'_>) -> Result<LineItem, LineFault>
    ensures { IsItemRead part.AVerdict (codes "consistent" ∷ words_in words.now) result }
{
    words.end()?;
    Ok(LineItem::Consistent)
}

fn inconsistent(words: &Words<'_>) -> Result<LineItem, LineFault>
    ensures { IsItemRead part.AVerdict (codes "inconsistent" ∷ words_in words.now) result }
{
    words.end()?;
    Ok(LineItem::Inconsistent)
}

/// The words behind `open`, where a part is open.
pub(crate) fn cause(words: &mut Words<'_>) -> Result<LineItem, LineFault>
    ensures { IsItemRead part.ACause (codes "open" ∷ words_in words.old) result }
{
    let why = words.next();
    if is(why, b"pivots") {
        return open_pivots(words);
    }
    if is(why, b"conflicts") {
        return open_conflicts(words);
    }
    if is(why, b"wide") {
        return open_wide(words);
    }
    Err(LineFault::NotCanonical)
}

fn open_pivots(words: &mut Words<'_>) -> Result<LineItem, LineFault>
    ensures { IsItemRead part.ACause (codes "open" ∷ codes "pivots" ∷ words_in words.old) result }
{
    let limit = count(words.next(), MOST_PIVOTS);
    let (limit, ()) = both(limit, words.end())?;
    Ok(LineItem::OpenPivots { limit })
}

fn open_conflicts(words: &mut Words<'_>) -> Result<LineItem, LineFault>
    ensures { IsItemRead part.ACause (codes "open" ∷ codes "conflicts" ∷ words_in words.old)
        result }
{
    let limit = count(words.next(), MOST_CONFLICTS);
    let (limit, ()) = both(limit, words.end())?;
    Ok(LineItem::OpenConflicts { limit })
}

/// The words of what is answered to a query.
pub(crate) fn answer(word: &[u8], words: &mut Words<'_>) -> Result<LineItem, LineFault>
    requires { list_any (λ w. bytes_eq word.now w) (first_words part.AnAnswer) ≡ true }
    ensures { IsItemRead part.AnAnswer (word.now ∷ words_in words.old) result }
{
    if is(word, b"bounds") {
        return bounds(words);
    }
    if is(word, b"impossible") {
        return impossible(words);
    }
    cause(words)
}

fn bounds(words: &Words<'_>) -> Result<LineItem, LineFault>
    ensures { IsItemRead part.AnAnswer (codes "bounds" ∷ words_in words.now) result }
{
    words.end()?;
    Ok(LineItem::Bounds)
}

fn impossible(words: &Words<'_>) -> Result<LineItem, LineFault>
    ensures { IsItemRead part.AnAnswer (codes "impossible" ∷ words_in words.now) result }
{
    words.end()?;
    Ok(LineItem::Impossible)
}

/// An event's words.
pub(crate) fn event(
    alloc: Global,
    word: &[u8],
    words: &mut Words<'_>,
) -> Result<LineItem, LineFault>
    requires { list_any (λ w. bytes_eq word.now w) (first_words part.AnEvent) ≡ true }
    ensures { IsItemRead part.AnEvent (word.now ∷ words_in words.old) result }
{
    if is(word, b"p") {
        return pivot(words);
    }
    priced_world(alloc, words)
}

/// The words of the query that is due, or of the end.
pub(crate) fn query(word: &[u8], due: u64, words: &mut Words<'_>) -> Result<LineItem, LineFault>
    requires { list_any (λ w. bytes_eq word.now w) (first_words (part.AQuery due)) ≡ true }
    ensures { IsItemRead (part.AQuery due) (word.now ∷ words_in words.old) result }
{
    if is(word, b"query") {
        return numbered_query(due, words);
    }
    end(words)
}

fn numbered_query(due: u64, words: &mut Words<'_>) -> Result<LineItem, LineFault>
    ensures { IsItemRead (part.AQuery due) (codes "query" ∷ words_in words.old) result }
{
    let number = query_number(words.next(), due);
    let (number, ()) = both(number, words.end())?;
    Ok(LineItem::Query { number })
}

fn end(words: &Words<'_>) -> Result<LineItem, LineFault>
    ensures { (j : ℕ) → IsItemRead (part.AQuery j) (codes "end" ∷ words_in words.now) result }
{
    words.end()?;
    Ok(LineItem::End)
}

/// The words behind `upper`, or `lower`.
pub(crate) fn side(upper: bool, words: &mut Words<'_>) -> Result<LineItem, LineFault>
    ensures { IsItemRead (part.ASide upper) (side_letters upper ∷ words_in words.old) result }
{
    if words.is_empty() {
        return Ok(LineItem::OpenSide { upper });
    }
    let value = value(words.next());
    let (value, ()) = both(value, words.end())?;
    Ok(LineItem::Bound { upper, value })
}
