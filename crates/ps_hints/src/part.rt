//! The part of a text that is at fault.
use crate::choice::hint_for;
use crate::hint::Hint;
use crate::items::{from_first_token, item_start};
use crate::place::Place;
use crate::refusals::Refusal;
use crate::spot::Spot;
use crate::sum_hints::begins_term;
use crate::words::{is_any, word_at_front};
use ps_read::{ReadKind, What};

/// A part of a text, by the offset of its first byte and the one behind its last.
#[derive(Clone, Copy)]
pub(crate) struct Part {
    /// Where it begins.
    pub(crate) start: usize,
    /// Where it ends.
    pub(crate) end: usize,
}

impl Part {
    /// Whether a byte belongs to it, by its offset.
    pub(crate) fn has(self, offset: usize) -> bool {
        self.start <= offset && offset < self.end
    }
}

// Whether what stands behind a `;` tells that it ends an item: the line ends, a comment begins, or
// an item.
fn begins_anew(rest: &[u8]) -> bool {
    let code = rest.trim_ascii_start();
    match rest.get(..rest.len().saturating_sub(code.len())) {
        Some(blanks) if blanks.contains(&b'\n') => true,
        _ => code.is_empty() || code.starts_with(b"#") || begins_item(code),
    }
}

// Whether an item begins here: a sentence with a term, perhaps behind a `-`.
fn begins_item(code: &[u8]) -> bool {
    is_any(word_at_front(code), &["query", "end"])
        || begins_term(code.strip_prefix(b"-").unwrap_or(code))
}

// What stands behind the byte at an offset.
fn behind(bytes: &[u8], offset: usize) -> &[u8] {
    bytes.get(offset.saturating_add(1)..).unwrap_or(&[])
}

// How many bytes go up to the end of an item: to the first `;` outside of comments that ends one.
fn bytes_to_end(rest: &[u8]) -> Option<usize> {
    let mut in_comment = false;
    for (offset, byte) in rest.iter().enumerate() {
        if *byte == b'\n' {
            in_comment = false;
        } else if *byte == b'#' {
            in_comment = true;
        } else if !in_comment && *byte == b';' && begins_anew(behind(rest, offset)) {
            return Some(offset.saturating_add(1));
        }
    }
    None
}

// How many bytes go up to the end of a comment in the manner of another language.
fn bytes_of_comment(rest: &[u8]) -> usize {
    let is_closed = rest.starts_with(b"/*");
    for (offset, byte) in rest.iter().enumerate() {
        if is_closed {
            if *byte == b'*' && behind(rest, offset).starts_with(b"/") {
                return offset.saturating_add(2);
            }
        } else if *byte == b'\n' {
            return offset;
        }
    }
    rest.len()
}

// Whether a `;` is missing at the end of the line before, where a new item begins.
fn is_unended(kind: ReadKind, spot: &Spot) -> bool {
    matches!(kind, ReadKind::Expected(What::Semicolon | What::Relation))
        && spot.begins_line()
        && begins_item(spot.behind)
}

// How many dashes of a comment in the manner of another language stand before: of `--` the first one
// is a sign of version 2.
fn dashes_before(spot: &Spot) -> usize {
    if spot.follows("-") && spot.begins("-") {
        1
    } else {
        0
    }
}

/// The part at fault of a text, for a refusal of it; `None` where its head or its end is at fault,
/// or no item ends behind.
pub(crate) fn faulty_part(text: &[u8], refusal: Refusal) -> Option<Part> {
    let place = Place {
        line: refusal.line,
        column: refusal.column,
    };
    let offset = place.offset_in(text);
    let spot = Spot::at(text, offset);
    let start = item_start(spot.before);
    if start == 0
        || is_any(
            word_at_front(from_first_token(&spot.before[start..])),
            &["end"],
        )
    {
        return None;
    }
    if let Some(Hint::Comment) = hint_for(refusal.kind, &spot) {
        return Some(Part {
            start: offset.saturating_sub(dashes_before(&spot)),
            end: offset.saturating_add(bytes_of_comment(spot.behind)),
        });
    }
    if is_unended(refusal.kind, &spot) {
        return Some(Part { start, end: offset });
    }
    Some(Part {
        start,
        end: offset.saturating_add(bytes_to_end(spot.behind)?),
    })
}
