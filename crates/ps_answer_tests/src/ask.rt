//! Whole inputs, with what is shown of their answers.
ghost use Rattle.std.specs.Prelude.{◌==◌};
ghost use Rattle.ps_ask.specs.Shown.{AreSettings};

use detail_rows::{EXAMPLES, WHY};
use late_rows::{LATE, RESTS};
use ps_ask::{
    ClaimKind, Company, Progress, Settings, Sinks, Sought, Status, Style, Wanted, Watch, Work, ask,
};
use ps_guess::Limits;
use ps_io::{MemSink, MemSource, NoMemory};
use rows::{OPEN, PROBLEM, ROWS, Row, UNWARNED, WORDS};
use std::alloc::Global;
use std::test::*;

mod detail_rows;
mod late_rows;
mod rows;

const DIGITS: u32 = 3;

fn settings(style: Style) -> Settings
    ensures { AreSettings result }
{
    Settings {
        limits: Limits {
            pivots: 10_000,
            conflicts: 20_000,
        },
        digits: DIGITS,
        style,
        tells_support: false,
        tells_examples: false,
        reports: true,
        warns: Wanted::all(true),
        is_timed: false,
    }
}

// Time is over once this was asked so often; what is noted is kept.
#[derive(Drop)]
struct Asked {
    left: u32,
    notes: Vec<u8>,
}

impl Watch for Asked {
    ghost has_refused = { λ a. a.left == 0 };

    fn is_over(&mut self) -> bool {
        if self.left == 0 {
            return true;
        }
        self.left -= 1;
        false
    }

    fn has_room(&mut self, work: Work, _: u32) -> bool {
        work == Work::Run || !self.is_over()
    }

    fn tell(&mut self, _: ClaimKind, _: Progress) {}
}

impl Company for Asked {
    fn note(&mut self, text: &[u8]) {
        let _ = self.notes.extend_from_slice(text);
    }

    fn turn_to(&mut self, _: Sought) {}

    fn clear(&mut self) {}
}

// Time is over once this was asked so often.
fn watch_for(alloc: Global, left: u32) -> Asked {
    Asked {
        left,
        notes: Vec::new(alloc),
    }
}

// A sink of so many bytes for what is shown, and one for the report.
fn sinks(alloc: Global, most: u64) -> Result<Sinks<MemSink, MemSink>, NoMemory> {
    Ok(Sinks {
        shown: MemSink::new(alloc, 8, Vec::new(alloc), most)?,
        report: MemSink::new(alloc, 8, Vec::new(alloc), 10_000)?,
    })
}

fn shows(alloc: Global, settings: Settings, row: &Row) -> Result<bool, Fail>
    requires { AreSettings settings }
{
    shows_in_time(alloc, settings, 100_000, row)
}

// Whether it is shown where time is over once it was asked so often.
fn shows_in_time(alloc: Global, settings: Settings, left: u32, row: &Row) -> Result<bool, Fail>
    requires { AreSettings settings }
{
    let bytes = Vec::from_slice(alloc, row.text)?;
    let mut source = MemSource::new(bytes, 7, Vec::new(alloc));
    let mut sinks = sinks(alloc, 10_000)?;
    let mut watch = watch_for(alloc, left);
    let status = ask(alloc, settings, "f", &mut source, &mut sinks, &mut watch);
    Ok(
        status == row.status
            && sinks.shown.bytes() == row.shown.as_bytes()
            && watch.notes.as_slice() == row.noted.as_bytes(),
    )
}

#[test]
fn inputs_are_answered(rt: HostRuntime) -> Result<(), Fail> {
    for row in &ROWS {
        assert!(rt; shows(rt.alloc(), settings(row.style), row)?);
    }
    Ok(())
}

#[test]
fn sentences_are_told_on_which_bounds_rest(rt: HostRuntime) -> Result<(), Fail> {
    for row in &WHY {
        let mut why = settings(row.style);
        why.tells_support = true;
        assert!(rt; shows(rt.alloc(), why, row)?);
    }
    Ok(())
}

#[test]
fn distributions_are_shown_that_reach_bounds(rt: HostRuntime) -> Result<(), Fail> {
    for row in &EXAMPLES {
        let mut shown = settings(row.style);
        shown.tells_examples = true;
        assert!(rt; shows(rt.alloc(), shown, row)?);
    }
    Ok(())
}

// The front of an object that has a name without what a terminal may take for a command: the ends of
// what is written by its number, with the next characters, which stand as they are.
const ODD_NAME: &str =
    "a\u{7f}\u{80}\u{9f}\u{a0}\u{2029}\u{202a}\u{202e}\u{202f}\u{2065}\u{2066}\u{2069}";

const ODD_FRONT: &str = concat!(
    "{\"file\":\"a\\u007f\\u0080\\u009f\u{a0}\u{2029}",
    "\\u202a\\u202e\u{202f}\u{2065}\\u2066\\u2069\",",
);

#[test]
fn names_in_objects_are_no_commands(rt: HostRuntime) -> Result<(), Fail> {
    let alloc = rt.alloc();
    let bytes = Vec::from_slice(alloc, b"psat 1; end;")?;
    let mut source = MemSource::new(bytes, 7, Vec::new(alloc));
    let mut sinks = sinks(alloc, 10_000)?;
    let mut watch = watch_for(alloc, 100);
    let json = settings(Style::Json);
    let status = ask(alloc, json, ODD_NAME, &mut source, &mut sinks, &mut watch);
    assert!(rt; status == Status::Done);
    assert!(rt; sinks.shown.bytes().starts_with(ODD_FRONT.as_bytes()));
    Ok(())
}

#[test]
fn warnings_are_left_out_where_none_are_wanted(rt: HostRuntime) -> Result<(), Fail> {
    for row in &UNWARNED {
        let mut unwarned = settings(row.style);
        unwarned.warns = Wanted::all(false);
        assert!(rt; shows(rt.alloc(), unwarned, row)?);
    }
    Ok(())
}

#[test]
fn an_input_that_is_too_long_is_told(rt: HostRuntime) -> Result<(), Fail> {
    let alloc = rt.alloc();
    let mut blanks = Vec::new(alloc);
    blanks.resize(1_048_577, b' ')?;
    let mut source = MemSource::new(blanks, 65_536, Vec::new(alloc));
    let mut sinks = sinks(alloc, 10_000)?;
    let mut watch = watch_for(alloc, 0);
    let words = settings(Style::Words);
    let status = ask(alloc, words, "f", &mut source, &mut sinks, &mut watch);
    assert!(rt; status == Status::Unreadable && sinks.shown.bytes().is_empty());
    assert!(rt; watch.notes.as_slice() == b"f: the input has more than 1048576 bytes\n".as_slice());
    Ok(())
}

#[test]
fn an_open_answer_tells_what_stopped_it(rt: HostRuntime) -> Result<(), Fail> {
    let mut none = settings(Style::Words);
    none.limits = Limits {
        pivots: 0,
        conflicts: 0,
    };
    assert!(rt; shows(rt.alloc(), none, &OPEN)?);
    Ok(())
}

fn timed(style: Style) -> Settings
    ensures { AreSettings result }
{
    Settings {
        is_timed: true,
        ..settings(style)
    }
}

#[test]
fn what_is_not_finished_in_time_is_named(rt: HostRuntime) -> Result<(), Fail> {
    for (left, row) in &LATE {
        assert!(rt; shows_in_time(rt.alloc(), timed(row.style), *left, row)?);
    }
    Ok(())
}

#[test]
fn all_is_finished_where_time_is_left(rt: HostRuntime) -> Result<(), Fail> {
    for row in &ROWS {
        assert!(rt; shows_in_time(rt.alloc(), timed(row.style), 100_000, row)?);
    }
    Ok(())
}

#[test]
fn rests_are_sought_as_long_as_time_is_left(rt: HostRuntime) -> Result<(), Fail> {
    for (left, row) in &RESTS {
        let mut none = timed(row.style);
        none.limits = Limits {
            pivots: 16,
            conflicts: 0,
        };
        assert!(rt; shows_in_time(rt.alloc(), none, *left, row)?);
    }
    Ok(())
}

#[test]
fn a_full_sink_holds_the_front(rt: HostRuntime) -> Result<(), Fail> {
    let alloc = rt.alloc();
    let bytes = Vec::from_slice(alloc, PROBLEM)?;
    let mut source = MemSource::new(bytes, 7, Vec::new(alloc));
    let mut sinks = sinks(alloc, 100)?;
    let mut watch = watch_for(alloc, 0);
    let words = settings(Style::Words);
    let status = ask(alloc, words, "f", &mut source, &mut sinks, &mut watch);
    assert!(rt; status == Status::WriteFault);
    assert!(rt; sinks.shown.bytes() == &WORDS.as_bytes()[..100]);
    assert!(rt; sinks.report.bytes().is_empty());
    Ok(())
}
