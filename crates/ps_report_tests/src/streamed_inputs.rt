//! Inputs that are judged as they come, in pieces of any size.
ghost use Rattle.std.specs.Prelude.{◌≤◌};

use crate::streamed::FAULTY;
use crate::validity::{ACCEPTED, REFUSED};
use ps_check::{Checked, check_stream};
use ps_io::{MemSource, NoMemory, ReadAllError};
use ps_read::ReadKind;
use ps_valid::{Accepted, Refusal};
use std::alloc::Global;

// Inputs in which no problem is read: why, and at which line and column.
const UNREAD: [(&[u8], ReadKind, u32, u32); 5] = [
    (b"", ReadKind::EndMissing, 1, 1),
    (b"psat 1; P(a) = 1/2;", ReadKind::EndMissing, 1, 20),
    (b"psat 1; P(a) = 1/2;\n\n ", ReadKind::EndMissing, 3, 2),
    (b"psat 1;\n$ P(a) = 1/2; end;", ReadKind::BadByte, 2, 1),
    (b"psat 1; $ end;\nreport 1\nend\n", ReadKind::BadByte, 1, 9),
];

// A source of an input in pieces, whose call of this number fails.
fn source_of(
    alloc: Global,
    text: &[u8],
    report: &[u8],
    piece: u64,
    failing: u64,
) -> Result<MemSource, NoMemory>
    requires { 1 ≤ piece }
{
    let mut bytes = Vec::new(alloc);
    bytes.extend_from_slice(text)?;
    bytes.extend_from_slice(report)?;
    let mut calls = Vec::new(alloc);
    calls.push(failing)?;
    Ok(MemSource::new(bytes, piece, calls))
}

// What is found of an input in pieces, where a call fails, by this limit.
fn found(
    alloc: Global,
    text: &[u8],
    report: &[u8],
    piece: u64,
    failing: u64,
    limit: u64,
) -> Result<Checked, ReadAllError>
    requires { 1 ≤ piece }
{
    match source_of(alloc, text, report, piece, failing) {
        Ok(mut source) => check_stream(alloc, &mut source, limit),
        Err(NoMemory) => Err(ReadAllError::NoMemory),
    }
}

// Whether this is found of an input in pieces of each size, but neither behind a call that fails nor
// where the limit is one byte fewer.
fn is_found(alloc: Global, text: &[u8], report: &[u8], expected: Checked) -> bool {
    let all = (text.len() as u64).saturating_add(report.len() as u64);
    let end = all.saturating_add(1);
    let is_whole = found(alloc, text, report, 1, 0, all) == Ok(expected)
        && found(alloc, text, report, 7, 0, all) == Ok(expected)
        && found(alloc, text, report, 65_536, 0, all) == Ok(expected);
    let is_failing = found(alloc, text, report, 1, end, all) == Err(ReadAllError::Fault)
        && found(alloc, text, report, 7, 1, all) == Err(ReadAllError::Fault);
    let limit = all.saturating_sub(1);
    let is_long = found(alloc, text, report, 7, 0, limit) == Err(ReadAllError::TooLong { limit });
    is_whole && is_failing && (is_long || all == 0)
}

fn are_accepted(alloc: Global) -> bool {
    for row in &ACCEPTED {
        let accepted = Accepted {
            claims: row.2,
            unfinished: row.3,
        };
        if !is_found(alloc, row.0, row.1, Checked::Accepted(accepted)) {
            return false;
        }
    }
    true
}

fn are_refused(alloc: Global) -> bool {
    for row in &REFUSED {
        let refusal = Refusal {
            claim: row.2,
            reason: row.3,
        };
        if !is_found(alloc, row.0, row.1, Checked::Refused(refusal)) {
            return false;
        }
    }
    true
}

fn are_at_fault(alloc: Global) -> bool {
    for row in &FAULTY {
        let line = Checked::RefusedLine {
            kind: row.2,
            line: row.3,
        };
        // A report whose first byte is a line feed would be taken for the end of the text's blanks.
        if !row.1.starts_with(b"\n") && !is_found(alloc, row.0, row.1, line) {
            return false;
        }
    }
    true
}

fn are_unread(alloc: Global) -> bool {
    for row in &UNREAD {
        let refusal = Checked::Unreadable {
            kind: row.1,
            line: row.2,
            column: row.3,
        };
        if !is_found(alloc, row.0, b"", refusal) {
            return false;
        }
    }
    true
}

#[test]
fn inputs_with_valid_reports_are_accepted(rt: HostRuntime) {
    assert!(rt; are_accepted(rt.alloc()));
}

#[test]
fn the_first_wrong_claim_of_an_input_is_named(rt: HostRuntime) {
    assert!(rt; are_refused(rt.alloc()));
}

#[test]
fn the_first_line_at_fault_of_an_input_is_named(rt: HostRuntime) {
    assert!(rt; are_at_fault(rt.alloc()));
}

#[test]
fn inputs_without_a_problem_are_refused(rt: HostRuntime) {
    assert!(rt; are_unread(rt.alloc()));
}
