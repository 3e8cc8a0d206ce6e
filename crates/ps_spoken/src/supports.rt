//! The sentences on which a bound rests, for people.
ghost use Rattle.std.specs.Prelude.{◌≡◌, int_lt, pos};
ghost use Rattle.ps_spoken.specs.Numbers.{Puts};
ghost use Rattle.ps_spoken.specs.Supports.{alone_moved, alone_text, bound_name, down_is_least};
ghost use Rattle.ps_spoken.specs.Supports.{end_moved, end_named, end_text, end_words, lowered_text};
ghost use Rattle.ps_spoken.specs.Supports.{moved_text, moved_words, moves_text, name_text, on_before};
ghost use Rattle.ps_spoken.specs.Supports.{on_these, raised_text, support_items, support_list};
ghost use Rattle.ps_spoken.specs.Supports.{support_text, supporting_text, turned_text, up_is_least};

use crate::clash::write_sentence;
use crate::numbers::{append, fraction, number};
use ps_frac::Fraction;
use ps_io::NoMemory;
use ps_problem::Problem;
use ps_support::{BoundSide, End, Support, Supporting};
use std::alloc::Global;

// The words for a bound.
fn bound_name(side: BoundSide) -> &'static [u8]
    ensures { result.now ≡ bound_name side }
{
    match side {
        BoundSide::Lower => b"  lower bound ",
        BoundSide::Upper => b"  upper bound ",
    }
}

/// Writes which bound it is, and its value.
#[tactic(auto, unfolding(crate::specs::Supports::name_text))]
pub(crate) fn write_name(
    out: &mut Vec<u8>,
    side: BoundSide,
    value: &Fraction,
) -> Result<(), NoMemory>
    ensures { Puts result out.old out.new (name_text side value.now) }
{
    append(out, bound_name(side))?;
    fraction(out, value)
}

// The words for a bound on how far a bound moves.
fn moved_words(is_least: bool) -> &'static [u8]
    ensures { result.now ≡ moved_words is_least }
{
    if is_least {
        return b"at least ";
    }
    b"at most "
}

// Writes a bound on how far a bound moves.
#[tactic(auto, unfolding(crate::specs::Supports::moved_text))]
fn write_moved(out: &mut Vec<u8>, is_least: bool, by: &Fraction) -> Result<(), NoMemory>
    ensures { Puts result out.old out.new (moved_text is_least by.now) }
{
    append(out, moved_words(is_least))?;
    fraction(out, by)
}

// A lower bound moves up by at least what its dual says, an upper one by at most that.
fn up_is_least(side: BoundSide) -> bool
    ensures { result ≡ up_is_least side }
{
    match side {
        BoundSide::Lower => true,
        BoundSide::Upper => false,
    }
}

// Down it is the other way round.
fn down_is_least(side: BoundSide) -> bool
    ensures { result ≡ down_is_least side }
{
    match side {
        BoundSide::Lower => false,
        BoundSide::Upper => true,
    }
}

// Writes how far down a bound moves where a number of a sentence rises by a hundredth.
#[tactic(auto, unfolding(crate::specs::Supports::lowered_text))]
fn write_lowered(out: &mut Vec<u8>, side: BoundSide, by: &Fraction) -> Result<(), NoMemory>
    ensures { Puts result out.old out.new (lowered_text side by.now) }
{
    append(out, b"1/100 more there lowers the bound by ")?;
    write_moved(out, down_is_least(side), &by.neg())
}

// Writes how far up it moves.
#[tactic(auto, unfolding(crate::specs::Supports::raised_text))]
fn write_raised(out: &mut Vec<u8>, side: BoundSide, by: &Fraction) -> Result<(), NoMemory>
    ensures { Puts result out.old out.new (raised_text side by.now) }
{
    append(out, b"1/100 more there raises the bound by ")?;
    write_moved(out, up_is_least(side), by)
}

// Whether it moves down.
fn is_lowered(by: &Fraction) -> bool
    ensures { result ≡ int_lt by.now.over (pos 0) }
{
    by.numerator() < 0
}

// Writes how far a bound moves where a number of a sentence rises by a hundredth.
fn write_turned(out: &mut Vec<u8>, side: BoundSide, by: &Fraction) -> Result<(), NoMemory>
    ensures { Puts result out.old out.new (turned_text side by.now) }
{
    if is_lowered(by) {
        return write_lowered(out, side, by);
    }
    write_raised(out, side, by)
}

// Writes how a bound moves with the only number of a sentence.
#[tactic(auto, unfolding(crate::specs::Supports::alone_moved))]
fn write_alone_moved(out: &mut Vec<u8>, side: BoundSide, by: &Fraction) -> Result<(), NoMemory>
    ensures { Puts result out.old out.new (alone_moved side by.now) }
{
    append(out, b" (")?;
    write_turned(out, side, by)?;
    append(out, b")")
}

// The same where that is known.
fn write_alone(out: &mut Vec<u8>, side: BoundSide, by: &Option<Fraction>) -> Result<(), NoMemory>
    ensures { Puts result out.old out.new (alone_text side by.now) }
{
    match by {
        Some(by) => write_alone_moved(out, side, by),
        None => append(out, b""),
    }
}

// The words of a number of an interval.
fn end_words(end: End) -> &'static [u8]
    ensures { result.now ≡ end_words end }
{
    match end {
        End::Only => b"",
        End::Lower => b"its lower end",
        End::Upper => b"its upper end",
    }
}

// Writes which number of an interval a bound rests on, and how it moves with that.
#[tactic(auto, unfolding(crate::specs::Supports::end_moved))]
fn write_end_moved(
    out: &mut Vec<u8>,
    side: BoundSide,
    end: End,
    by: &Fraction,
) -> Result<(), NoMemory>
    ensures { Puts result out.old out.new (end_moved side end by.now) }
{
    append(out, b" (")?;
    append(out, end_words(end))?;
    append(out, b"; ")?;
    write_turned(out, side, by)?;
    append(out, b")")
}

// Writes which number of an interval it rests on.
#[tactic(auto, unfolding(crate::specs::Supports::end_named))]
fn write_end_named(out: &mut Vec<u8>, end: End) -> Result<(), NoMemory>
    ensures { Puts result out.old out.new (end_named end) }
{
    append(out, b" (")?;
    append(out, end_words(end))?;
    append(out, b")")
}

// The same, and how it moves with that where it is known.
fn write_end(
    out: &mut Vec<u8>,
    side: BoundSide,
    end: End,
    by: &Option<Fraction>,
) -> Result<(), NoMemory>
    ensures { Puts result out.old out.new (end_text side end by.now) }
{
    match by {
        Some(by) => write_end_moved(out, side, end, by),
        None => write_end_named(out, end),
    }
}

// Writes which number of a sentence a bound rests on, and how it moves with that.
fn write_moves(out: &mut Vec<u8>, side: BoundSide, sentence: &Supporting) -> Result<(), NoMemory>
    ensures { Puts result out.old out.new (moves_text side sentence.now) }
{
    match sentence.end {
        End::Only => write_alone(out, side, &sentence.hundredth),
        End::Lower => write_end(out, side, End::Lower, &sentence.hundredth),
        End::Upper => write_end(out, side, End::Upper, &sentence.hundredth),
    }
}

// Writes what stands before a sentence of these.
fn write_on(out: &mut Vec<u8>, place: usize) -> Result<(), NoMemory>
    ensures { Puts result out.old out.new (on_before place) }
{
    if place == 0 {
        return append(out, b"line ");
    }
    append(out, b",\n    and line ")
}

// Writes a sentence on which a bound rests, with its line.
#[tactic(auto, unfolding(crate::specs::Supports::supporting_text))]
fn write_supporting(
    alloc: Global,
    out: &mut Vec<u8>,
    problem: &Problem,
    side: BoundSide,
    place: usize,
    sentence: &Supporting,
) -> Result<(), NoMemory>
    ensures { Puts result out.old out.new
        (supporting_text problem.now side place sentence.now) }
{
    write_on(out, place)?;
    number(out, i128::from(sentence.line))?;
    append(out, b": ")?;
    write_sentence(alloc, out, problem, sentence.sentence)?;
    write_moves(out, side, sentence)
}

// Writes the sentences on which a bound rests.
fn write_all_supporting(
    alloc: Global,
    out: &mut Vec<u8>,
    problem: &Problem,
    side: BoundSide,
    all: &[Supporting],
) -> Result<(), NoMemory>
    ensures { Puts result out.old out.new (support_items problem.now side all.now) }
{
    for place in 0..all.len() {
        write_supporting(alloc, out, problem, side, place, &all[place])?;
    }
    Ok(())
}

// Writes that a bound rests on these sentences.
#[tactic(auto, unfolding(crate::specs::Supports::on_these))]
fn write_on_these(
    alloc: Global,
    out: &mut Vec<u8>,
    problem: &Problem,
    side: BoundSide,
    all: &[Supporting],
) -> Result<(), NoMemory>
    ensures { Puts result out.old out.new (on_these problem.now side all.now) }
{
    append(out, b" rests on ")?;
    write_all_supporting(alloc, out, problem, side, all)?;
    append(out, b"\n")
}

// The same, or that it rests on none.
fn write_list(
    alloc: Global,
    out: &mut Vec<u8>,
    problem: &Problem,
    side: BoundSide,
    all: &[Supporting],
) -> Result<(), NoMemory>
    ensures { Puts result out.old out.new (support_list problem.now side all.now) }
{
    if all.is_empty() {
        return append(out, b" rests on no sentence\n");
    }
    write_on_these(alloc, out, problem, side, all)
}

/// Writes the sentences on which a bound rests, each with its line, and how the bound moves with its
/// number where that is known.
#[tactic(auto, unfolding(crate::specs::Supports::support_text))]
pub(crate) fn write_support(
    alloc: Global,
    out: &mut Vec<u8>,
    problem: &Problem,
    side: BoundSide,
    support: &Support,
) -> Result<(), NoMemory>
    ensures { Puts result out.old out.new (support_text problem.now side support.now) }
{
    write_name(out, side, &support.value)?;
    write_list(alloc, out, problem, side, support.sentences.as_slice())
}
