//! The names in a text, in the order in which its problem numbers them.
use crate::words::{is_reserved, is_word_byte, word_at_front};
use ps_io::NoMemory;
use std::alloc::Global;

// The bytes with a space for each byte of a comment.
fn without_comments(alloc: Global, bytes: &[u8]) -> Result<Vec<u8>, NoMemory> {
    let mut text = Vec::new(alloc);
    let mut in_comment = false;
    for byte in bytes {
        if *byte == b'\n' {
            in_comment = false;
        } else if *byte == b'#' {
            in_comment = true;
        }
        text.push(if in_comment { b' ' } else { *byte })?;
    }
    Ok(text)
}

// Whether a piece of a text between two `;` is a query.
fn is_query(piece: &[u8]) -> bool {
    word_at_front(piece.trim_ascii_start()) == b"query".as_slice()
}

// Whether a word is a name.
fn is_name(word: &[u8]) -> bool {
    matches!(word, [first, ..] if first.is_ascii_alphabetic()) && !is_reserved(word)
}

// Adds a name if it is a new one; so many are taken, and the first past them is answered.
fn add_name<'t>(
    names: &mut Vec<&'t [u8]>,
    name: &'t [u8],
    most: usize,
) -> Result<Option<&'t [u8]>, NoMemory> {
    if names.iter().any(|other| *other == name) {
        return Ok(None);
    }
    if names.len() >= most {
        return Ok(Some(name));
    }
    names.push(name)?;
    Ok(None)
}

// Adds the names of a piece; the first past so many is answered.
fn add_names<'t>(
    names: &mut Vec<&'t [u8]>,
    piece: &'t [u8],
    most: usize,
) -> Result<Option<&'t [u8]>, NoMemory> {
    for word in piece.split(|byte| !is_word_byte(*byte)) {
        if is_name(word) {
            if let Some(name) = add_name(names, word, most)? {
                return Ok(Some(name));
            }
        }
    }
    Ok(None)
}

// Adds the names of the sentences, or those of the queries; the first past so many is answered.
fn add_all<'t>(
    names: &mut Vec<&'t [u8]>,
    text: &'t [u8],
    of_queries: bool,
    most: usize,
) -> Result<Option<&'t [u8]>, NoMemory> {
    for piece in text.split(|byte| *byte == b';') {
        if is_query(piece) == of_queries {
            if let Some(name) = add_names(names, piece, most)? {
                return Ok(Some(name));
            }
        }
    }
    Ok(None)
}

/// The first name past so many, in the order in which atoms are numbered: the sentences' names come
/// before those of the queries.
pub(crate) fn name_past(
    alloc: Global,
    bytes: &[u8],
    most: usize,
) -> Result<Option<Vec<u8>>, NoMemory> {
    let text = without_comments(alloc, bytes)?;
    let mut names = Vec::new(alloc);
    let name = match add_all(&mut names, &text, false, most)? {
        Some(name) => Some(name),
        None => add_all(&mut names, &text, true, most)?,
    };
    match name {
        Some(name) => Ok(Some(Vec::from_slice(alloc, name)?)),
        None => Ok(None),
    }
}
