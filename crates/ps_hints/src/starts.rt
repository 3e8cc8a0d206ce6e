//! The lines on which sentences and queries begin.
ghost use Rattle.std.specs.Prelude.{◌≡◌, ◌++◌, IfOk, OnOk, All};
ghost use Rattle.ps_hints.specs.Places.{IsLineOf, noted};

use crate::scanner::{Looked, Scanner};
use ps_io::NoMemory;
use std::alloc::Global;

// Adds a line where an item begins there.
fn note(lines: &mut Vec<u32>, line: u32, begins: bool) -> Result<(), NoMemory>
    ensures { OnOk result (lines.new.items ≡ lines.old.items ++ noted begins line) }
{
    if begins {
        lines.push(line)?;
    }
    Ok(())
}

// The lines on which items begin.
fn lines_of(alloc: Global, bytes: &[u8], looked: Looked) -> Result<Vec<u32>, NoMemory>
    ensures { IfOk result (λ lines. All (IsLineOf bytes.now) lines.items) }
{
    let mut lines = Vec::new(alloc);
    let mut scanner = Scanner::new(looked);
    for byte in bytes {
        let begins = scanner.pass(*byte);
        note(&mut lines, scanner.line(), begins)?;
    }
    Ok(lines)
}

/// The line on which each sentence of a problem's text begins, from 1 on, in the order of the
/// sentences.
pub fn sentence_lines(alloc: Global, bytes: &[u8]) -> Result<Vec<u32>, NoMemory>
    ensures { IfOk result (λ lines. All (IsLineOf bytes.now) lines.items) }
{
    lines_of(alloc, bytes, Looked::Sentences)
}

/// The line on which each query of a problem's text begins, from 1 on, in the order of the queries.
pub fn query_lines(alloc: Global, bytes: &[u8]) -> Result<Vec<u32>, NoMemory>
    ensures { IfOk result (λ lines. All (IsLineOf bytes.now) lines.items) }
{
    lines_of(alloc, bytes, Looked::Queries)
}
