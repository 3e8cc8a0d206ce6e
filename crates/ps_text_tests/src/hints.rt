//! Messages about the errors that people really make, through the reader.
mod excerpts;
mod formula_rows;
mod habits;
mod item_rows;
mod letter_rows;
mod lines;
mod number_rows;
mod sum_rows;
mod table;
mod texts;
mod warnings;

use ps_hints::refusal_message;
use ps_read::{ReadError, read_whole};
use std::alloc::Global;
use std::test::*;

// A text that is no problem, and the whole message.
struct Row {
    text: &'static str,
    message: &'static str,
}

// The message about a text that is no problem.
fn message(alloc: Global, text: &[u8]) -> Option<String> {
    if text.len() >= 1_000_000 {
        return None;
    }
    match read_whole(alloc, text) {
        Err(ReadError::At { kind, line, column }) => {
            refusal_message(alloc, "f", text, kind, line, column).ok()
        }
        _ => None,
    }
}

// Whether the message about a text is this.
fn is_told(alloc: Global, text: &[u8], told: &str) -> bool {
    match message(alloc, text) {
        Some(message) => message.as_str() == told,
        None => false,
    }
}

// How many rows have another message, and the first of them.
fn wrong_rows(alloc: Global, rows: &[Row]) -> usize {
    rows.iter()
        .filter(|row| !is_told(alloc, row.text.as_bytes(), row.message))
        .count()
}

#[test]
fn errors_in_formulas_have_hints(rt: HostRuntime) -> Result<(), Fail> {
    assert_eq!(rt; wrong_rows(rt.alloc(), &formula_rows::ROWS), 0);
    Ok(())
}

#[test]
fn errors_in_numbers_have_hints(rt: HostRuntime) -> Result<(), Fail> {
    assert_eq!(rt; wrong_rows(rt.alloc(), &number_rows::ROWS), 0);
    Ok(())
}

#[test]
fn errors_in_sums_have_hints(rt: HostRuntime) -> Result<(), Fail> {
    assert_eq!(rt; wrong_rows(rt.alloc(), &sum_rows::ROWS), 0);
    Ok(())
}

#[test]
fn errors_in_items_have_hints(rt: HostRuntime) -> Result<(), Fail> {
    assert_eq!(rt; wrong_rows(rt.alloc(), &item_rows::ROWS), 0);
    Ok(())
}

#[test]
fn strange_letters_have_hints(rt: HostRuntime) -> Result<(), Fail> {
    assert_eq!(rt; wrong_rows(rt.alloc(), &letter_rows::ROWS), 0);
    Ok(())
}
