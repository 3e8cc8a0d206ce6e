//! Reading weighted clauses.
ghost use Rattle.std.specs.Prelude.{IfOk};
ghost use Rattle.ps_wcnf.specs.Counted.{TakesLine, IsLargeUnless};
ghost use Rattle.ps_wcnf.specs.Limits.{IsText};
ghost use Rattle.ps_wcnf.specs.Readings.{IsReading};

use crate::draft::Draft;
use crate::line::{Told, read_line};
use crate::splitting::next_line;
use crate::text::WcnfText;
use crate::wcnf_error::{WcnfError, WcnfKind};
use ps_io::NoMemory;
use std::alloc::Global;

fn large_unless(added: bool) -> Option<WcnfKind>
    ensures { IsLargeUnless added result }
{
    if added {
        None
    } else {
        Some(WcnfKind::TooLarge)
    }
}

// Adds what a line says, and answers what is wrong with it, if anything is.
fn take_line(alloc: Global, draft: &mut Draft, line: &[u8]) -> Result<Option<WcnfKind>, NoMemory>
    ensures { IfOk result (TakesLine draft.old draft.new line.now) }
{
    match read_line(alloc, line)? {
        Told::Bad => Ok(Some(WcnfKind::BadLine)),
        Told::Large => Ok(Some(WcnfKind::TooLarge)),
        Told::Nothing => Ok(None),
        Told::Hard(lits) => Ok(large_unless(draft.add_hard(lits)?)),
        Told::Soft(weight, lits) => Ok(large_unless(draft.add_soft(alloc, weight, lits)?)),
    }
}

/// Reads hard and soft clauses. A line ends with a line feed, before which one carriage return is
/// dropped, or with the text. It has no word; or the first begins with `c`; or the first is `h` or
/// a weight of at least 1, and literals and a closing `0` follow. The first line is answered that
/// has none of these forms, or with which a weight is more than 2^62, a literal's size more than
/// 1,024, the sum of the weights more than 2^90, the number of clauses more than 1,000,000, or the
/// variables and those of the soft clauses' own together more than 1,024.
pub fn read_wcnf(alloc: Global, bytes: &[u8]) -> Result<WcnfText, WcnfError>
    ensures read { IsReading bytes.now result }
    ensures text { IfOk result IsText }
{
    let mut draft = Draft::new(alloc);
    let mut number = 0;
    let mut rest = Some(bytes);
    while let Some(text) = rest {
        let (line, after) = next_line(text);
        number += 1;
        if let Some(kind) = take_line(alloc, &mut draft, line)? {
            return Err(WcnfError::At { kind, line: number });
        }
        rest = after;
    }
    Ok(draft.into_text())
}
