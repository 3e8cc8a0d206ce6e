//! A warning, and the lines of some.
ghost use Rattle.ps_hints.specs.Shown.{AddsLines};

use crate::kind::WarningKind;
use crate::message::Message;
use ps_io::NoMemory;
use std::alloc::Global;

/// A warning about a problem.
#[derive(Drop)]
pub struct Warning {
    /// What it is about.
    pub kind: WarningKind,
    /// The line that it is about, from 1 on, where that is known.
    pub line: Option<u32>,
    /// Its words.
    pub text: String,
}

/// Writes the line of a warning: `FILE:LINE: warning: ..`.
#[tactic(auto, using(crate::proofs::Lines::none))]
pub(crate) fn write_warning(
    alloc: Global,
    out: &mut Vec<u8>,
    name: &str,
    warning: &Warning,
) -> Result<(), NoMemory>
    ensures { AddsLines out.old.items out.new.items }
{
    let mut message = Message::new(alloc);
    message.push_text(name)?;
    if let Some(line) = warning.line {
        message.push(':')?;
        message.push_number(line)?;
    }
    message.push_text(": warning: ")?;
    message.push_text(warning.text.as_str())?;
    message.write_line(out)
}

/// Writes warnings under the name of the problem's file, one line each: `FILE:LINE: warning: ..`.
#[tactic(auto, using(crate::proofs::Lines::none, crate::proofs::Lines::then))]
pub fn write_warning_lines(
    alloc: Global,
    out: &mut Vec<u8>,
    name: &str,
    warnings: &[Warning],
) -> Result<(), NoMemory>
    // Whole lines are added, and no control characters that a terminal may take for a command.
    ensures { AddsLines out.old.items out.new.items }
{
    for warning in warnings {
        write_warning(alloc, out, name, warning)?;
    }
    Ok(())
}
