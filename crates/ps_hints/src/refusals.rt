//! All refusals of a text that can be told apart.
ghost use Rattle.std.specs.Prelude.{◌≡◌, ◌<◌, ◌+◌, ◌^◌, All, IfOk, IfSome, Some, length, slice_get};
ghost use Rattle.ps_hints.specs.Refusals.{AreBlanked, IsKeptOrBlank, IsRefusedSo, IsToldOf};

use crate::part::{Part, faulty_part};
use crate::place::Place;
use ps_io::NoMemory;
use ps_read::{ReadError, ReadKind, read_whole};
use std::alloc::Global;

/// The most refusals that are told.
pub const MOST_TOLD: usize = 20;

/// Why a text is no problem, and the line and the column, from 1 on.
#[derive(Clone, Copy, Debug, PartialEq, Eq)]
pub struct Refusal {
    /// Why.
    pub kind: ReadKind,
    /// The line.
    pub line: u32,
    /// The column, in bytes.
    pub column: u32,
}

// Whether a refusal behind another is one of its own: it isn't about the text as a whole, of which
// a part was left out.
fn is_local(kind: ReadKind) -> bool {
    !matches!(
        kind,
        ReadKind::EndMissing
            | ReadKind::TooManyAtoms
            | ReadKind::TooManyNodes
            | ReadKind::TooManyBounds
            | ReadKind::TooManyQueries
    )
}

// The byte in its place where a part is left out.
fn byte_without(byte: u8, is_out: bool) -> u8
    ensures { IsKeptOrBlank byte result }
{
    if is_out && byte != b'\n' { b' ' } else { byte }
}

// The text with spaces in place of a part, but for its line feeds.
fn without(alloc: Global, text: &[u8], part: Part) -> Result<Vec<u8>, NoMemory>
    ensures { IfOk result (λ v. AreBlanked text.now v.items) }
{
    let mut left = Vec::new(alloc);
    for (offset, byte) in text.iter().enumerate() {
        left.push(byte_without(*byte, part.has(offset)))?;
    }
    Ok(left)
}

// The refusal of a text, if it is one of its own that stands at an offset or behind.
fn refusal_behind(alloc: Global, text: &[u8], offset: usize) -> Result<Option<Refusal>, NoMemory>
    requires room { length text.now + 1 < 2 ^ 32 }
    ensures { IfOk result (λ told. IfSome told (λ r. IsRefusedSo text.now r)) }
{
    match read_whole(alloc, text) {
        Ok(_) => Ok(None),
        Err(ReadError::NoMemory) => Err(NoMemory),
        Err(ReadError::At { kind, line, column }) => {
            if is_local(kind) && offset <= (Place { line, column }).offset_in(text) {
                Ok(Some(Refusal { kind, line, column }))
            } else {
                Ok(None)
            }
        }
    }
}

/// The refusals of a text that can be told apart, of which the first is known: the part at fault,
/// mostly up to its `;`, is left out, and the text is read again. At most `MOST_TOLD` are told.
#[tactic(auto, using(crate::proofs::Blanks::same, crate::proofs::Blanks::told_first, crate::proofs::Blanks::as_many))]
pub fn all_refusals(alloc: Global, bytes: &[u8], first: Refusal) -> Result<Vec<Refusal>, NoMemory>
    requires room { length bytes.now + 1 < 2 ^ 32 }
    requires first { IsRefusedSo bytes.now first }
    // The first is told as it is.
    ensures first { IfOk result (λ told. slice_get told.items 0 ≡ Some first) }
    // Each is a refusal of the text in which spaces stand for some of the bytes, but for line feeds.
    ensures told { IfOk result (λ told. All (IsToldOf bytes.now) told.items) }
{
    let mut told = Vec::new(alloc);
    told.push(first)?;
    let mut text = Vec::from_slice(alloc, bytes)?;
    let mut last = first;
    for _turn in 1..MOST_TOLD {
        let Some(part) = faulty_part(&text, last) else {
            return Ok(told);
        };
        text = without(alloc, &text, part)?;
        let Some(refusal) = refusal_behind(alloc, &text, part.end)? else {
            return Ok(told);
        };
        told.push(refusal)?;
        last = refusal;
    }
    Ok(told)
}
