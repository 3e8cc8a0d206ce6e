//! Messages about bytes that are no problem.
ghost use Rattle.std.specs.Prelude.{◌≤◌, length, OnOk, IfOk};
ghost use Rattle.ps_hints.specs.Hints.{IsCount};
ghost use Rattle.std.specs.String.{string_bytes};
ghost use Rattle.ps_hints.specs.Shown.{AddsLines, IsHarmless, EndsLine};

use crate::caret::push_line_and_caret;
use crate::choice::hint_for;
use crate::expectation::{excess, expectation};
use crate::found::Found;
use crate::hint::Hint;
use crate::message::Message;
use crate::names::name_past;
use crate::place::{Place, end_of_tokens};
use crate::refusals::{MOST_TOLD, Refusal};
use crate::spot::Spot;
use crate::words::{NOT, is_any};
use ps_io::NoMemory;
use ps_read::{ReadKind, What};
use std::alloc::Global;

// The most atoms of a problem.
const MOST_ATOMS: usize = 128;

// Where a refusal is shown: what is missing at the end of a line is shown there.
fn shown_offset(kind: ReadKind, before: &[u8]) -> usize
    ensures { result ≤ length before.now }
{
    let end = end_of_tokens(before);
    let has_line_between = before[end..].contains(&b'\n');
    match kind {
        ReadKind::Expected(What::Semicolon) | ReadKind::EndMissing if has_line_between => end,
        _ => before.len(),
    }
}

// Where `not` stands right before an operand, as a name by which an operator is expected.
fn not_offset(kind: ReadKind, spot: &Spot) -> Option<usize> {
    let word = spot.word_before();
    if kind != ReadKind::Expected(What::Operator) || !is_any(word, NOT) {
        return None;
    }
    spot.before.trim_ascii_end().len().checked_sub(word.len())
}

// What was found: the end of the line where that is shown in place of the next token.
fn found_at<'t>(kind: ReadKind, spot: &Spot<'t>, shown: usize) -> Found<'t> {
    if kind == ReadKind::EndMissing {
        Found::TextEnd
    } else if shown < spot.before.len() {
        Found::LineEnd
    } else {
        Found::at(spot)
    }
}

// Adds the place and the name.
fn push_place(message: &mut Message, name: &str, place: Place) -> Result<(), NoMemory> {
    message.push_text(name)?;
    message.push(':')?;
    message.push_number(place.line)?;
    message.push(':')?;
    message.push_number(place.column)?;
    message.push_text(": ")
}

// Adds that there is too much of something, with the atom that is too much where it is that.
fn push_excess(
    alloc: Global,
    message: &mut Message,
    bytes: &[u8],
    kind: ReadKind,
) -> Result<(), NoMemory>
    requires { IsCount kind }
{
    message.push_text("with ")?;
    match kind {
        ReadKind::TooManyAtoms => match name_past(alloc, bytes, MOST_ATOMS)? {
            Some(name) => {
                message.push_text("the atom `")?;
                message.push_bytes(&name)?;
                message.push('`')?;
            }
            None => message.push_text("this")?,
        },
        _ => message.push_text("this")?,
    }
    message.push(' ')?;
    message.push_text(excess(kind))
}

// Adds what was found and what was expected.
fn push_fault(message: &mut Message, found: Found, expected: &str) -> Result<(), NoMemory> {
    message.push_text("found ")?;
    found.push_to(message)?;
    message.push_text(", expected ")?;
    message.push_text(expected)
}

// Adds the line of a hint, where there is one.
fn push_hint(message: &mut Message, hint: Option<Hint>) -> Result<(), NoMemory>
    ensures { EndsLine message.old → OnOk result (EndsLine message.new) }
{
    match hint {
        Some(hint) => {
            message.push_text("  hint: ")?;
            message.push_text(hint.text())?;
            message.end_line()
        }
        None => Ok(()),
    }
}

/// The message about a refusal at a line and a column: `NAME:LINE:COLUMN: found this, expected
/// that`, the line with a caret below the place, and a hint where there is one. What is missing at
/// the end of a line is shown there. No control character is in it but tabs and line feeds.
pub fn refusal_message(
    alloc: Global,
    name: &str,
    bytes: &[u8],
    kind: ReadKind,
    line: u32,
    column: u32,
) -> Result<String, NoMemory>
    // No control character that a terminal may take for a command stands in the message.
    ensures harmless { IfOk result (λ text. IsHarmless (string_bytes text)) }
    ensures line { IfOk result (λ text. EndsLine (string_bytes text)) }
{
    let spot = Spot::at(bytes, Place { line, column }.offset_in(bytes));
    let not = not_offset(kind, &spot);
    let shown = not.unwrap_or(shown_offset(kind, spot.before));
    let shown_spot = Spot::at(bytes, shown);
    let mut message = Message::new(alloc);
    push_place(&mut message, name, Place::behind_all(shown_spot.before))?;
    match expectation(kind, &spot) {
        None => push_excess(alloc, &mut message, bytes, kind)?,
        Some(_) if not.is_some() => push_fault(&mut message, Found::at(&shown_spot), "`!`")?,
        Some(expected) => push_fault(&mut message, found_at(kind, &spot, shown), expected)?,
    }
    message.end_line()?;
    push_line_and_caret(alloc, &mut message, &shown_spot)?;
    push_hint(&mut message, hint_for(kind, &spot))?;
    Ok(message.into_text())
}

// Writes that there may be more.
#[tactic(auto, using(crate::proofs::Lines::none))]
fn write_rest(alloc: Global, out: &mut Vec<u8>, name: &str) -> Result<(), NoMemory>
    ensures { AddsLines out.old.items out.new.items }
{
    let mut message = Message::new(alloc);
    message.push_text(name)?;
    message.push_text(": there may be more errors than these ")?;
    message.push_number(MOST_TOLD as u32)?;
    message.write_line(out)
}

/// Writes the messages about refusals of a text, one behind the other.
#[tactic(auto, using(crate::proofs::Lines::none, crate::proofs::Lines::then, crate::proofs::Lines::line))]
pub fn write_refusals(
    alloc: Global,
    out: &mut Vec<u8>,
    name: &str,
    bytes: &[u8],
    told: &[Refusal],
) -> Result<(), NoMemory>
    // Whole lines are added, and no control characters that a terminal may take for a command.
    ensures { AddsLines out.old.items out.new.items }
{
    for refusal in told {
        let Refusal { kind, line, column } = *refusal;
        let text = refusal_message(alloc, name, bytes, kind, line, column)?;
        out.extend_from_slice(text.as_bytes())?;
    }
    if told.len() < MOST_TOLD {
        return Ok(());
    }
    write_rest(alloc, out, name)
}
