//! The line at the front of some bytes.
ghost use Rattle.std.specs.Prelude.{IfOk, IfErr, IfSome, IfNone};
ghost use Rattle.ps_log.specs.FirstLines.{IsFirstLine, IsOneLine};
ghost use Rattle.ps_max_text.specs.Lines.{TakesLine, IsLineFault};

use crate::item::MaxItem;
use crate::item_reader::{is_begun, item};
use crate::part::MaxPart;
use ps_answer::LineKind;
use ps_log::split_once;
use ps_reader::{LineError, LineFault};
use std::alloc::Global;

/// Reads the line at the front, where a part is due: what it says, and the bytes that follow it.
/// Numbers may have any size; a fault is that of the line whatever is due behind the part. Takes
/// memory for values, steps and goals alone, so want of memory comes at no other line.
pub(crate) fn read_line(
    alloc: Global,
    part: MaxPart,
    bytes: &[u8],
) -> Result<(MaxItem, &[u8]), LineError>
    ensures line { IfOk result (λ r. TakesLine part bytes.now r.0 r.1.now) }
    ensures fault { IfErr result (λ e. IsLineFault part bytes.now e) }
{
    let (line, rest) = match split_line(bytes) {
        Some(cut) => cut,
        None => return Err(LineError::Fault(LineKind::Truncated)),
    };
    if !is_begun(part, line) {
        return Err(LineError::Fault(LineKind::BadLine));
    }
    match item(alloc, part, bytes, line) {
        Ok(item) => Ok((item, rest)),
        Err(LineFault::NotCanonical) => Err(LineError::Fault(LineKind::NotCanonical)),
        Err(LineFault::TooLarge) => Err(LineError::Fault(LineKind::TooLarge)),
        Err(LineFault::NoMemory) => Err(LineError::NoMemory),
    }
}

fn split_line(bytes: &[u8]) -> Option<(&[u8], &[u8])>
    ensures found { IfSome result (λ r. IsFirstLine bytes.now r.0.now r.1.now) }
    ensures none { IfNone result (IsOneLine bytes.now) }
{
    split_once(bytes, b'\n')
}
