//! Words of a line.
ghost use Rattle.std.specs.Prelude.{◌≡◌, ◌≤◌, ◌<◌, ◌+◌, [], ◌∷◌, length, decimal, map};
ghost use Rattle.ps_io.specs.LineText.{IsWord, with_word};
ghost use Rattle.ps_io.specs.Lines.{line_length, text_of};
ghost use Rattle.ps_log.specs.Lines.{HoldsLine};
ghost use Rattle.ps_answer.specs.Answers.{ratio_of};
ghost use Rattle.ps_answer.specs.Items.{op_word, side_word};
ghost use Rattle.ps_answer.specs.Words.{Fraction as ratio, Column as column, word_text};
ghost use Rattle.ps_answer.specs.Words.{Truths, digit_of};
ghost use Rattle.ps_report.specs.Written.{AddsWords, with_words};

use arrayvec::ArrayVec;
use ps_formula::World;
use ps_frac::{Fraction, Op};
use ps_io::{LONGEST_LINE, Lines, Sink};
use ps_table::Col;

/// A fraction has at most so many bytes: two numbers, and `/`.
pub(crate) const LONGEST_FRACTION: usize = 81;

/// A column has at most so many bytes: a letter, and a number.
pub(crate) const LONGEST_COLUMN: usize = 41;

/// Adds a fraction to the line: the numerator, `/`, the denominator.
pub(crate) fn add_fraction<O: Sink>(lines: &mut Lines<'_, O>, q: &Fraction)
    requires { line_length lines.old + LONGEST_FRACTION < LONGEST_LINE }
    ensures line { AddsWords lines.old lines.new (ratio (ratio_of q.now) ∷ []) }
    ensures short { line_length lines.new ≤ line_length lines.old + LONGEST_FRACTION + 1 }
{
    q.fits();
    let word = fraction_word(q);
    lines.word(word.as_slice());
}

fn fraction_word(q: &Fraction) -> ArrayVec<u8, LONGEST_FRACTION>
    ensures text { result.items ≡ word_text (ratio (ratio_of q.now)) }
    ensures short { length result.items ≤ LONGEST_FRACTION }
{
    let mut word = ArrayVec::new();
    let mut digits = itoa::Buffer::new();
    let _ = word.try_extend_from_slice(digits.format(q.numerator()).as_bytes());
    word.push(b'/');
    let _ = word.try_extend_from_slice(digits.format(q.denominator()).as_bytes());
    word
}

/// Adds a column to the line: `h` and the home's row, or `w` and the world's number.
pub(crate) fn add_column<O: Sink>(lines: &mut Lines<'_, O>, col: &Col)
    requires { line_length lines.old + LONGEST_COLUMN < LONGEST_LINE }
    ensures line { AddsWords lines.old lines.new (column col.now ∷ []) }
    ensures short { line_length lines.new ≤ line_length lines.old + LONGEST_COLUMN + 1 }
{
    match col {
        Col::Home(row) => add_lettered(lines, b'h', *row),
        Col::World(number) => add_lettered(lines, b'w', *number),
    }
}

fn add_lettered<O: Sink>(lines: &mut Lines<'_, O>, letter: u8, n: u32)
    requires one_word { IsWord (letter ∷ []) }
    requires fits { line_length lines.old + LONGEST_COLUMN < LONGEST_LINE }
    ensures line { HoldsLine lines.old lines.new
        (with_word (text_of lines.old) (letter ∷ decimal n)) }
    ensures short { line_length lines.new ≤ line_length lines.old + LONGEST_COLUMN + 1 }
{
    let word = lettered_word(letter, n);
    lines.word(word.as_slice());
}

fn lettered_word(letter: u8, n: u32) -> ArrayVec<u8, LONGEST_COLUMN>
    ensures text { result.items ≡ letter ∷ decimal n }
    ensures short { length result.items ≤ LONGEST_COLUMN }
{
    let mut word = ArrayVec::new();
    let mut digits = itoa::Buffer::new();
    word.push(letter);
    let _ = word.try_extend_from_slice(digits.format(n).as_bytes());
    word
}

/// Adds a world to the line: a digit for each atom, or a dash where there is none.
#[tactic(auto, using(crate::proofs::Spelled::world_digits))]
pub fn add_world<O: Sink>(lines: &mut Lines<'_, O>, world: &World)
    requires { length (with_words (text_of lines.old) (Truths world.now ∷ [])) < LONGEST_LINE }
    ensures { AddsWords lines.old lines.new (Truths world.now ∷ []) }
{
    if world.len() == 0 {
        add_dash(lines);
    } else {
        add_digits(lines, world.as_slice());
    }
}

fn add_dash<O: Sink>(lines: &mut Lines<'_, O>)
    requires { length (with_word (text_of lines.old) (45 ∷ [])) < LONGEST_LINE }
    ensures { HoldsLine lines.old lines.new (with_word (text_of lines.old) (45 ∷ [])) }
{
    lines.word(b"-");
}

fn add_digits<O: Sink>(lines: &mut Lines<'_, O>, values: &[bool])
    requires { length (with_word (text_of lines.old) (map digit_of values.now)) < LONGEST_LINE }
    ensures { HoldsLine lines.old lines.new
        (with_word (text_of lines.old) (map digit_of values.now)) }
{
    let word = digits_word(values);
    lines.word(word.as_slice());
}

fn digits_word(values: &[bool]) -> ArrayVec<u8, LONGEST_LINE>
    requires { length values.now ≤ LONGEST_LINE }
    ensures { result.items ≡ map digit_of values.now }
{
    let mut word = ArrayVec::new();
    push_digits(&mut word, values);
    word
}

fn push_digits(word: &mut ArrayVec<u8, LONGEST_LINE>, values: &[bool])
    requires empty { word.old.items ≡ [] }
    requires fits { length values.now ≤ LONGEST_LINE }
    ensures { word.new.items ≡ map digit_of values.now }
{
    for value in values {
        word.push(digit(value));
    }
}

fn digit(value: &bool) -> u8
    ensures { result ≡ digit_of value.now }
{
    if *value { b'1' } else { b'0' }
}

/// Adds an operation's word to the line.
pub(crate) fn add_op<O: Sink>(lines: &mut Lines<'_, O>, op: &Op)
    requires { line_length lines.old + 3 < LONGEST_LINE }
    ensures line { AddsWords lines.old lines.new (op_word op.now ∷ []) }
    ensures short { line_length lines.new ≤ line_length lines.old + 4 }
{
    match op {
        Op::Add => lines.word(b"add"),
        Op::Sub => lines.word(b"sub"),
        Op::Mul => lines.word(b"mul"),
        Op::Div => lines.word(b"div"),
        Op::Lcm => lines.word(b"lcm"),
    }
}

/// Adds `upper` to the line, or `lower`.
pub(crate) fn add_side<O: Sink>(lines: &mut Lines<'_, O>, upper: bool)
    requires { line_length lines.old + 5 < LONGEST_LINE }
    ensures line { AddsWords lines.old lines.new (side_word upper ∷ []) }
    ensures short { line_length lines.new ≤ line_length lines.old + 6 }
{
    if upper {
        lines.word(b"upper");
    } else {
        lines.word(b"lower");
    }
}
