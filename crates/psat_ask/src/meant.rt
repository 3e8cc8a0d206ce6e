//! Options and kinds of warnings that aren't known, and which may be meant.
use crate::refused::Refused;
use crate::texts::WRONG_KINDS;
use ps_names::shown_name;
use std::alloc::{AllocError, Global};
use strsim::osa_distance;

/// The options that are known.
const OPTIONS: [&str; 13] = [
    "--digits",
    "--quiet",
    "--json",
    "--why",
    "--example",
    "--report",
    "--pivots",
    "--conflicts",
    "--time-limit",
    "--no-warnings",
    "--no-progress",
    "--help",
    "--version",
];

/// The kinds of warnings.
const KINDS: [&str; 6] = ["or", "interval", "twice", "name", "unstated", "condition"];

/// A word with so many edits or fewer to a name may mean it.
const MOST_EDITS: usize = 2;

/// A word of more bytes means none.
const MOST_BYTES: usize = 40;

// The name that is closest to a word, if one is near: with edits to less than half of its letters.
fn close_to(
    alloc: Global,
    word: &str,
    names: &[&'static str],
) -> Result<Option<&'static str>, AllocError> {
    let mut nearest = None;
    let mut least = MOST_EDITS + 1;
    if word.len() > MOST_BYTES {
        return Ok(None);
    }
    for name in names {
        let edits = osa_distance(alloc, word, name)?;
        if edits < least && edits < name.len() / 2 {
            least = edits;
            nearest = Some(*name);
        }
    }
    Ok(nearest)
}

// What stands before the value of an option, also of one with a single `-`.
fn name_in(word: &str) -> &str {
    match word.split_once('=') {
        Some((name, _)) => name,
        None => word,
    }
}

// What is told of an option that isn't known.
fn told_of(alloc: Global, word: &str) -> Result<Refused, Refused> {
    let name = shown_name(alloc, word)?;
    match close_to(alloc, name_in(word), &OPTIONS)? {
        Some(option) => Ok(Refused::Misspelt(name, option)),
        None => Ok(Refused::Unknown(name)),
    }
}

/// The refusal of an option that isn't known.
pub fn unknown(alloc: Global, word: &str) -> Refused {
    match told_of(alloc, word) {
        Ok(refused) => refused,
        Err(refused) => refused,
    }
}

// What is told of a kind of warnings that isn't known.
fn told_of_kind(alloc: Global, word: &str) -> Result<Refused, Refused> {
    match close_to(alloc, word, &KINDS)? {
        Some(kind) => Ok(Refused::MisspeltKind(shown_name(alloc, word)?, kind)),
        None => Ok(Refused::Wrong(WRONG_KINDS)),
    }
}

/// The refusal of a kind of warnings that isn't known.
pub fn unknown_kind(alloc: Global, word: &str) -> Refused {
    match told_of_kind(alloc, word) {
        Ok(refused) => refused,
        Err(refused) => refused,
    }
}
