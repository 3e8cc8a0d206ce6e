//! Reports that are judged line by line: what is said of them is what is said of them as a whole.
ghost use Rattle.std.specs.Prelude.{IfSome, IfNone};
ghost use Rattle.ps_log.specs.FirstLines.{IsOneLine};

use crate::validity::{ACCEPTED, HALF_ASKED, INCONSISTENT, REFUSED, problem_of};
use ps_answer::LineKind;
use ps_check::{StreamCheck, StreamEnd};
use ps_log::split_once;
use ps_problem::Problem;
use ps_valid::{Accepted, Refusal};
use std::alloc::Global;

// Problems, reports, the first line at fault and its kind.
pub(crate) const FAULTY: [(&[u8], &[u8], LineKind, u64); 9] = [
    (HALF_ASKED, b"", LineKind::Truncated, 1),
    (HALF_ASKED, b"report 1", LineKind::Truncated, 1),
    (HALF_ASKED, b"report 1\n", LineKind::Truncated, 2),
    (HALF_ASKED, b"report 2\n", LineKind::NotCanonical, 1),
    (HALF_ASKED, b"\n\n", LineKind::BadLine, 1),
    (
        HALF_ASKED,
        b"report 1\nopen pivots 0\nt 1\nc 1\nend\n\n",
        LineKind::MoreAfterEnd,
        6,
    ),
    (
        HALF_ASKED,
        b"report 1\nopen pivots 0\nt 1\nc 1\nend\nx",
        LineKind::MoreAfterEnd,
        6,
    ),
    (
        HALF_ASKED,
        b"report 1\nopen pivots 0\nt 1\nend\n",
        LineKind::BadLine,
        4,
    ),
    // The multipliers are of a wrong sign, but a line at fault behind them is told first.
    (
        INCONSISTENT,
        b"report 1\ninconsistent\ndual 0 1 1\ny 2 6 3\ns 5 0 4 3 0\nt 00\nend\n",
        LineKind::NotCanonical,
        6,
    ),
];

// A line without its feed, and what stands behind it.
fn next_line(bytes: &[u8]) -> Option<(&[u8], &[u8])>
    ensures line { IfSome result (λ r. IsOneLine r.0.now) }
    ensures rest { IfNone result (IsOneLine bytes.now) }
{
    split_once(bytes, b'\n')
}

// Takes the lines of a report, and answers the bytes behind the last one.
fn take_lines<'a>(check: &mut StreamCheck, report: &'a [u8]) -> Option<&'a [u8]>
    ensures { IfSome result (λ rest. IsOneLine rest.now) }
{
    let mut rest = report;
    for _ in 0..report.len() {
        match next_line(rest) {
            Some((line, more)) => {
                check.line(line).ok()?;
                rest = more;
            }
            None => return Some(rest),
        }
    }
    match next_line(rest) {
        Some(_) => None,
        None => Some(rest),
    }
}

// What is said of a report that comes line by line.
fn said(alloc: Global, problem: Problem, report: &[u8]) -> Result<Accepted, StreamEnd> {
    let Ok(mut check) = StreamCheck::new(alloc, problem) else {
        return Err(StreamEnd::NoMemory);
    };
    match take_lines(&mut check, report) {
        Some(rest) => check.finish(rest),
        None => Err(StreamEnd::NoMemory),
    }
}

// Whether this is said of a report on the problem of a text.
fn is_said(
    alloc: Global,
    text: &[u8],
    report: &[u8],
    expected: Result<Accepted, StreamEnd>,
) -> bool {
    match problem_of(alloc, text) {
        Some(problem) => said(alloc, problem, report) == expected,
        None => false,
    }
}

fn are_accepted(alloc: Global) -> bool {
    for row in &ACCEPTED {
        let accepted = Accepted {
            claims: row.2,
            unfinished: row.3,
        };
        if !is_said(alloc, row.0, row.1, Ok(accepted)) {
            return false;
        }
    }
    true
}

fn are_refused(alloc: Global) -> bool {
    for row in &REFUSED {
        let refusal = Refusal {
            claim: row.2,
            reason: row.3,
        };
        if !is_said(alloc, row.0, row.1, Err(StreamEnd::Refused(refusal))) {
            return false;
        }
    }
    true
}

fn are_at_fault(alloc: Global) -> bool {
    for row in &FAULTY {
        let end = StreamEnd::Line {
            kind: row.2,
            line: row.3,
        };
        if !is_said(alloc, row.0, row.1, Err(end)) {
            return false;
        }
    }
    true
}

#[test]
fn valid_reports_are_accepted_line_by_line(rt: HostRuntime) {
    assert!(rt; are_accepted(rt.alloc()));
}

#[test]
fn the_first_wrong_claim_is_named_line_by_line(rt: HostRuntime) {
    assert!(rt; are_refused(rt.alloc()));
}

#[test]
fn the_first_line_at_fault_is_named(rt: HostRuntime) {
    assert!(rt; are_at_fault(rt.alloc()));
}
