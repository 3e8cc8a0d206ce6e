//! Ends that fail, input that is cut off, and input without bounds.
use crate::checking::{HALF, RAIN, changed, ended, given};
use ps_commands::{Status, run};
use ps_io::{MemSink, MemSource, NoMemory};
use std::alloc::Global;
use std::test::*;

// Whether a run with this failing read ends with the status, and writes only at Done.
fn reads(alloc: Global, call: u64, due: Status) -> bool {
    match ended(alloc, &["check"], HALF.as_bytes(), &[call], &[]) {
        Ok((status, sink)) => status == due && sink.bytes().is_empty() == (due != Status::Done),
        Err(_) => false,
    }
}

// Whether a run with this failing write ends with the status, and has written so many bytes.
fn writes(alloc: Global, call: u64, due: Status, count: usize) -> bool {
    match ended(alloc, &["check"], HALF.as_bytes(), &[], &[call]) {
        Ok((status, sink)) => status == due && sink.bytes().len() == count,
        Err(_) => false,
    }
}

#[test]
fn faults(rt: HostRuntime) -> Result<(), Fail> {
    let alloc = rt.alloc();
    // The input of 75 bytes comes in pieces of 7, and the 12th read finds its end.
    assert!(rt;
        reads(alloc, 1, Status::ReadFault)
            && reads(alloc, 12, Status::ReadFault)
            && reads(alloc, 13, Status::Done)
    );
    // The line of 27 bytes goes in pieces of 8.
    assert!(rt;
        writes(alloc, 1, Status::WriteFault, 0)
            && writes(alloc, 4, Status::WriteFault, 24)
            && writes(alloc, 5, Status::Done, 27)
    );
    Ok(())
}

// Whether `check` refuses an input that is cut off: as no problem where this has no end, and else at
// the line of the report that isn't whole.
fn is_cut(alloc: Global, front: &[u8]) -> Result<bool, NoMemory> {
    let (status, sink) = ended(alloc, &["check"], front, &[], &[])?;
    if front.len() + 1 < RAIN.len() {
        return Ok(status == Status::Unreadable && sink.bytes().starts_with(b"unreadable: "));
    }
    let report = front.get(RAIN.len()..).unwrap_or(&[]);
    let lines = report.split(|byte| *byte == b'\n').count();
    let told = format!(in alloc; "refused report line {lines} truncated\n")?;
    Ok(status == Status::Refused && sink.bytes() == told.as_bytes())
}

fn all_fronts_are_cut(alloc: Global) -> Result<bool, NoMemory> {
    let input = changed(alloc, 1, 0, "")?;
    let mut right = true;
    for length in 0..input.len() {
        let front = input.as_bytes().get(..length).unwrap_or(&[]);
        right = right && is_cut(alloc, front)?;
    }
    Ok(right)
}

#[test]
fn inputs_that_are_cut_off_are_refused(rt: HostRuntime) -> Result<(), Fail> {
    assert!(rt; all_fronts_are_cut(rt.alloc())?);
    Ok(())
}

const ASKED: &[u8] = b"psat 1; P(a) = 7/10; P(a -> b) = 9/10; query P(b); end;";

const ROOM: u64 = 10_000;

// A run of `solve` on that, byte by byte, where these calls fail and the sink has so much room.
fn solved(
    alloc: Global,
    reads: &[u64],
    writes: &[u64],
    room: u64,
) -> Result<(Status, MemSink), NoMemory> {
    let words = given(alloc, &["solve"])?;
    let bytes = Vec::from_slice(alloc, ASKED)?;
    let mut source = MemSource::new(bytes, 1, Vec::from_slice(alloc, reads)?);
    let mut sink = MemSink::new(alloc, 1, Vec::from_slice(alloc, writes)?, room)?;
    let status = run(alloc, words.as_slice(), &mut source, &mut sink);
    Ok((status, sink))
}

// Whether a run whose write behind so many others fails has written just this, and one with so much
// room too.
fn is_written(alloc: Global, count: u64, front: &[u8]) -> Result<bool, NoMemory> {
    let (failed, sink) = solved(alloc, &[], &[count.saturating_add(1)], ROOM)?;
    let (full, small) = solved(alloc, &[], &[], count)?;
    Ok(
        failed == Status::WriteFault
            && full == Status::WriteFault
            && sink.bytes() == front
            && small.bytes() == front,
    )
}

fn all_fronts_are_written(alloc: Global) -> Result<bool, NoMemory> {
    let (status, whole) = solved(alloc, &[], &[], ROOM)?;
    let report = whole.bytes();
    let mut right = status == Status::Done;
    for count in 0..report.len() {
        let front = report.get(..count).unwrap_or(&[]);
        right = right && is_written(alloc, count as u64, front)?;
    }
    Ok(right)
}

// Whether a run with this failing read writes nothing.
fn is_unread(alloc: Global, call: u64) -> Result<bool, NoMemory> {
    let (status, sink) = solved(alloc, &[call], &[], ROOM)?;
    Ok(status == Status::ReadFault && sink.bytes().is_empty())
}

fn no_read_may_fail(alloc: Global) -> Result<bool, NoMemory> {
    let mut right = true;
    for call in 1..=ASKED.len() as u64 + 1 {
        right = right && is_unread(alloc, call)?;
    }
    Ok(right)
}

#[test]
fn each_call_may_fail(rt: HostRuntime) -> Result<(), Fail> {
    let alloc = rt.alloc();
    assert!(rt; all_fronts_are_written(alloc)? && no_read_may_fail(alloc)?);
    Ok(())
}

// Whether `solve` refuses an input that begins with this, with so many times this byte behind.
fn is_endless(
    alloc: Global,
    front: &[u8],
    byte: u8,
    count: usize,
    line: &[u8],
) -> Result<bool, NoMemory> {
    let mut input = Vec::from_slice(alloc, front)?;
    input.extend_from_slice(&vec![in alloc; byte; count]?)?;
    let (status, sink) = ended(alloc, &["solve"], &input, &[], &[])?;
    Ok(status == Status::Unreadable && sink.bytes() == line)
}

// What begins an input, which byte follows, how often, and the line that is due.
const ENDLESS: [(&[u8], u8, usize, &[u8]); 2] = [
    (
        b"psat 1;\nP(",
        b'(',
        1_000_000,
        b"unreadable: too deep at 2:103\n",
    ),
    (
        b"",
        b' ',
        1_048_577,
        b"unreadable: more than 1048576 bytes\n",
    ),
];

fn all_are_endless(alloc: Global) -> Result<bool, NoMemory> {
    let mut right = true;
    for (front, byte, count, line) in ENDLESS {
        right = right && is_endless(alloc, front, byte, count, line)?;
    }
    Ok(right)
}

#[test]
fn endless_inputs_are_refused(rt: HostRuntime) -> Result<(), Fail> {
    assert!(rt; all_are_endless(rt.alloc())?);
    Ok(())
}

// Whether a run of `solve` where these calls fail ends with the status, and has written this.
fn is_solving_cut(
    alloc: Global,
    reads: &[u64],
    writes: &[u64],
    due: Status,
    written: &str,
) -> bool {
    let input = "psat 1; P(a) = 0.6; P(b) = 0.7; query P(a & b); end;";
    match ended(alloc, &["solve"], input.as_bytes(), reads, writes) {
        Ok((status, sink)) => status == due && sink.bytes() == written.as_bytes(),
        Err(_) => false,
    }
}

fn faults_of_solve_are_told(alloc: Global) -> bool {
    is_solving_cut(alloc, &[], &[2], Status::WriteFault, "report 1")
        && is_solving_cut(alloc, &[1], &[], Status::ReadFault, "")
}

#[test]
fn faults_while_solving(rt: HostRuntime) -> Result<(), Fail> {
    assert!(rt; faults_of_solve_are_told(rt.alloc()));
    Ok(())
}
