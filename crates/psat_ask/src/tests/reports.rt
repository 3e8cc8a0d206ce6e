//! The report of an answer.
ghost use Rattle.std.specs.Prelude.{IfSome, false};
ghost use Rattle.ps_valid.specs.Limits.{IsSmallAnswer};

use super::asked;
use ps_answer::Answer;
use ps_ask::{ClaimKind, Company, Progress, Sinks, Sought, Status, Style, Watch, Work, ask};
use ps_io::{MemSink, MemSource, NoMemory};
use ps_read::read_whole;
use ps_reader::read_report;
use ps_valid::{check, reports_are_small};
use std::alloc::Global;
use std::test::*;

const PROBLEM: &[u8] = b"psat 1; P(a) in [1/3, 1/2]; P(b given a) >= 2/3; query P(b); end;";

/// Nothing is beside an answer: no clock, and nobody is told.
#[derive(Drop)]
struct Alone;

impl Watch for Alone {
    ghost has_refused = { λ _. false };

    fn is_over(&mut self) -> bool {
        false
    }

    fn has_room(&mut self, _work: Work, _turn: u32) -> bool {
        true
    }

    fn tell(&mut self, _kind: ClaimKind, _progress: Progress) {}
}

impl Company for Alone {
    fn note(&mut self, _text: &[u8]) {}

    fn turn_to(&mut self, _sought: Sought) {}

    fn clear(&mut self) {}
}

// The ends of an answer in memory.
fn sinks(alloc: Global) -> Result<Sinks<MemSink, MemSink>, NoMemory> {
    Ok(Sinks {
        shown: MemSink::new(alloc, 100, Vec::new(alloc), 10_000)?,
        report: MemSink::new(alloc, 100, Vec::new(alloc), 10_000)?,
    })
}

// The answer of a report.
fn answer_of(alloc: Global, report: &[u8]) -> Option<Answer>
    ensures { IfSome result IsSmallAnswer }
{
    reports_are_small();
    match read_report(alloc, report) {
        Ok(answer) => Some(answer),
        Err(_) => None,
    }
}

// The answer of the report that is written, alone or beside what is shown.
fn reported(alloc: Global, words: &[&'static str]) -> Option<Answer>
    ensures { IfSome result IsSmallAnswer }
{
    let settings = asked(alloc, words)?.settings;
    let bytes = Vec::from_slice(alloc, PROBLEM).ok()?;
    let mut source = MemSource::new(bytes, 100, Vec::new(alloc));
    let mut sinks = sinks(alloc).ok()?;
    let status = ask(alloc, settings, "f", &mut source, &mut sinks, &mut Alone);
    if status != Status::Done {
        return None;
    }
    if settings.style == Style::Report {
        answer_of(alloc, sinks.shown.bytes())
    } else {
        answer_of(alloc, sinks.report.bytes())
    }
}

// Whether the report that is written for words is accepted, with its three claims.
fn is_accepted(alloc: Global, words: &[&'static str]) -> bool {
    match (read_whole(alloc, PROBLEM), reported(alloc, words)) {
        (Ok(problem), Some(answer)) => {
            matches!(check(alloc, &problem, &answer), Ok(accepted) if accepted.claims == 3)
        }
        _ => false,
    }
}

#[test]
fn reports_are_accepted(rt: HostRuntime) {
    let alloc = rt.alloc();
    assert!(rt; is_accepted(alloc, &["--report", "r"]) && is_accepted(alloc, &["--report", "-"]));
}
