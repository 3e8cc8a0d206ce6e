//! Notes for people beside what is shown: messages about bytes that are no problem, and warnings.
ghost use Rattle.std.specs.Prelude.{◌<◌, ◌+◌, ◌^◌, length};
ghost use Rattle.ps_read.specs.Readings.{IsUnreadWhole};

use crate::settings::Settings;
use ps_hints::{
    Refusal, Warning, all_refusals, warnings_about, write_refusals, write_warning_lines,
};
use ps_io::NoMemory;
use ps_names::shown_name;
use ps_problem::Problem;
use ps_read::ReadKind;
use ps_spoken::Warned;
use std::alloc::Global;

/// What is noted of an input by its name.
#[derive(Clone, Copy, Drop)]
pub struct Input<'a> {
    /// The name.
    pub name: &'a str,
    /// Its bytes.
    pub bytes: &'a [u8],
}

/// What is noted where the bytes are no problem: the message about the first refusal, and those about
/// further ones that can be told apart from it.
pub fn refusal_noted(
    alloc: Global,
    input: Input<'_>,
    kind: ReadKind,
    line: u32,
    column: u32,
) -> Result<Vec<u8>, NoMemory>
    requires room { length input.bytes.now + 1 < 2 ^ 32 }
    requires unread { IsUnreadWhole input.bytes.now kind
        (record { line = line; column = column }) }
{
    let first = Refusal { kind, line, column };
    let told = all_refusals(alloc, input.bytes, first)?;
    let mut notes = Vec::new(alloc);
    write_refusals(alloc, &mut notes, input.name, input.bytes, &told)?;
    Ok(notes)
}

/// What is noted of an input with more bytes than the limit, under its name as names are shown.
pub fn length_noted(alloc: Global, name: &str, limit: u64) -> Result<Vec<u8>, NoMemory> {
    let name = shown_name(alloc, name)?;
    let text = format!(in alloc; "{name}: the input has more than {limit} bytes\n")?;
    Ok(Vec::from_slice(alloc, text.as_bytes())?)
}

/// What is noted where memory for warnings is lacking.
pub const MISSING: &[u8] = b"warning: some warnings are missing: not enough memory\n";

/// Warnings, as they are noted.
pub fn warnings_noted(
    alloc: Global,
    input: Input<'_>,
    warnings: &[Warning],
) -> Result<Vec<u8>, NoMemory> {
    let mut notes = Vec::new(alloc);
    write_warning_lines(alloc, &mut notes, input.name, warnings)?;
    Ok(notes)
}

/// The warnings about a problem that are wanted, as they are noted.
pub fn problem_noted(
    alloc: Global,
    settings: Settings,
    input: Input<'_>,
    problem: &Problem,
) -> Result<Vec<u8>, NoMemory> {
    let found = warnings_about(alloc, input.bytes, problem, settings.warns)?;
    warnings_noted(alloc, input, &found)
}

/// The warnings about a problem that are wanted, as they go with an answer.
pub fn problem_warned(
    alloc: Global,
    settings: Settings,
    input: Input<'_>,
    problem: &Problem,
) -> Result<Vec<Warned>, NoMemory> {
    let mut all = Vec::new(alloc);
    for warning in &warnings_about(alloc, input.bytes, problem, settings.warns)? {
        all.push(Warned {
            line: warning.line,
            kind: warning.kind.word().as_bytes(),
            text: Vec::from_slice(alloc, warning.text.as_bytes())?,
        })?;
    }
    Ok(all)
}
