//! Words that say a number, a column, an operation or a fraction.
ghost use Rattle.std.specs.Prelude.{◌≡◌, ◌≤◌, ◌≤ℤ◌, pos, ⊤};
ghost use Rattle.ps_answer.specs.Items.{count, IsPrintable, IsWorldWithin, IsColWithin};
ghost use Rattle.ps_answer.specs.Items.{IsShownWithin, shown_word, op_word};
ghost use Rattle.ps_answer.specs.declared.limits.TheConstants.{MOST_ROW, MOST_WORLD, MOST_QUERIES};
ghost use Rattle.ps_answer.specs.Words.{Number, Column};
ghost use Rattle.ps_reader.specs.Read.{IsWordRead};
ghost use Rattle.ps_reader.specs.Kinds.{IsHome, IsWorld, IsNotZero, IsQuery, IsVersion};

use crate::line_fault::LineFault;
use crate::numeral::{count_up_to, number_up_to};
use crate::words::is;
use ps_answer::{MOST_QUERIES, MOST_ROW, MOST_WORLD};
use ps_frac::Op;
use ps_meaning::PRINTED_LIMIT;
use ps_table::{Col, TableCol};

/// A count up to a limit.
pub fn count(word: &[u8], limit: u64) -> Result<u64, LineFault>
    ensures { IsWordRead (λ n. count n) (λ n. ⊤) (λ n. n ≤ limit) word.now result }
{
    Ok(count_up_to(u128::from(limit), word)? as u64)
}

/// The number of a row or of its home, up to 100.
pub(crate) fn row(word: &[u8]) -> Result<u32, LineFault>
    ensures { IsWordRead (λ n. count n) (λ n. ⊤) (λ n. n ≤ MOST_ROW) word.now result }
{
    Ok(count_up_to(MOST_ROW, word)? as u32)
}

/// The number of a world, from 1 to 1,000,001.
pub(crate) fn world_number(word: &[u8]) -> Result<u32, LineFault>
    ensures { IsWordRead (λ n. count n) (λ n. ⊤) IsWorldWithin word.now result }
{
    let n = count_up_to(MOST_WORLD, word)?;
    not_zero(n)
}

fn not_zero(n: u128) -> Result<u32, LineFault>
    requires { n ≤ MOST_WORLD }
    ensures { IsNotZero n result }
{
    if n == 0 {
        Err(LineFault::TooLarge)
    } else {
        Ok(n as u32)
    }
}

/// A number up to 2^90 in size.
pub(crate) fn number(word: &[u8]) -> Result<i128, LineFault>
    ensures { IsWordRead (λ z. Number z) (λ z. ⊤) IsPrintable word.now result }
{
    number_up_to(PRINTED_LIMIT, word)
}

/// A number from 0 to 2^90.
pub fn amount(word: &[u8]) -> Result<i128, LineFault>
    ensures { IsWordRead (λ z. Number z) (λ z. pos 0 ≤ℤ z) IsPrintable word.now result }
{
    Ok(count_up_to(PRINTED_LIMIT, word)? as i128)
}

/// The version of a report.
pub fn version(word: &[u8]) -> Result<(), LineFault>
    ensures { IsWordRead (λ u. count 1) (λ u. ⊤) (λ u. ⊤) word.now result }
{
    match count_up_to(1, word) {
        Ok(n) => version_of(n),
        Err(why) => Err(why.of_any_size()),
    }
}

fn version_of(n: u128) -> Result<(), LineFault>
    ensures { IsVersion n result }
{
    if n == 1 {
        Ok(())
    } else {
        Err(LineFault::NotCanonical)
    }
}

/// The number of the query that is due, of any size; up to 16.
pub(crate) fn query_number(word: &[u8], due: u64) -> Result<u64, LineFault>
    ensures { IsWordRead (λ n. count n) (λ n. n ≡ due) (λ n. n ≤ MOST_QUERIES) word.now result }
{
    match count_up_to(u128::from(u64::MAX), word) {
        Ok(n) => query_within(n, due),
        Err(why) => Err(why.of_any_size()),
    }
}

fn query_within(n: u128, due: u64) -> Result<u64, LineFault>
    ensures { IsQuery n due result }
{
    if n != u128::from(due) {
        return Err(LineFault::NotCanonical);
    }
    if due <= MOST_QUERIES {
        Ok(due)
    } else {
        Err(LineFault::TooLarge)
    }
}

/// A column of the table: a home from 0 to 100, or a world from 1 to 1,000,001.
pub(crate) fn column(word: &[u8]) -> Result<Col, LineFault>
    ensures { IsWordRead (λ c. Column c) (λ c. ⊤) IsColWithin word.now result }
{
    match word {
        [b'h', digits @ ..] => home(digits),
        [b'w', digits @ ..] => world(digits),
        _ => Err(LineFault::NotCanonical),
    }
}

fn home(digits: &[u8]) -> Result<Col, LineFault>
    ensures { IsHome digits.now result }
{
    Ok(Col::Home(count_up_to(MOST_ROW, digits)? as u32))
}

fn world(digits: &[u8]) -> Result<Col, LineFault>
    ensures { IsWorld digits.now result }
{
    Ok(Col::World(world_number(digits)?))
}

/// A column, or `r` for the right side.
pub(crate) fn table_column(word: &[u8]) -> Result<TableCol, LineFault>
    ensures { IsWordRead shown_word (λ c. ⊤) IsShownWithin word.now result }
{
    if is(word, b"r") {
        return Ok(TableCol::Right);
    }
    Ok(TableCol::Of(column(word)?))
}

/// An operation.
pub(crate) fn op(word: &[u8]) -> Result<Op, LineFault>
    ensures { IsWordRead op_word (λ o. ⊤) (λ o. ⊤) word.now result }
{
    if is(word, b"add") {
        return Ok(Op::Add);
    }
    if is(word, b"sub") {
        return Ok(Op::Sub);
    }
    if is(word, b"mul") {
        return Ok(Op::Mul);
    }
    if is(word, b"div") {
        return Ok(Op::Div);
    }
    if is(word, b"lcm") {
        return Ok(Op::Lcm);
    }
    Err(LineFault::NotCanonical)
}
