//! What words ask for, and the number behind several answers.
ghost use Rattle.std.specs.Prelude.{IfSome};
ghost use Rattle.ps_ask.specs.Shown.{AreSettings};
ghost use Rattle.psat_ask.specs.Requests.{HasSettings};

mod reports;

use crate::progress::figures_of;
use crate::refused::Refused;
use crate::request::{Asked, Request, request_of};
use crate::statuses::{Answering, answer_all};
use ps_ask::{ClaimKind, Progress, Settings, Status, Style, Wanted, WarningKind};
use std::alloc::Global;
use std::test::*;

// Words, as the system hands them out.
fn words_of(alloc: Global, words: &[&'static str]) -> Option<Vec<String>> {
    let mut all = Vec::new(alloc);
    for word in words {
        all.push(String::from_str(alloc, word).ok()?).ok()?;
    }
    Some(all)
}

// The request of words.
fn request(alloc: Global, words: &[&'static str]) -> Option<Request>
    ensures { IfSome result HasSettings }
{
    request_of(alloc, &words_of(alloc, words)?).ok()
}

// The fault of words, as it is told.
fn fault(alloc: Global, words: &[&'static str]) -> Option<String> {
    let refused = request_of(alloc, &words_of(alloc, words)?).err()?;
    format!(in alloc; "{refused}").ok()
}

fn asked(alloc: Global, words: &[&'static str]) -> Option<Asked>
    ensures { IfSome result (λ a. AreSettings a.settings) }
{
    match request(alloc, words)? {
        Request::Ask(asked) => Some(asked),
        _ => None,
    }
}

// Words that ask for answers, and what they ask for.
struct Row {
    words: &'static [&'static str],
    pivots: u64,
    conflicts: u64,
    digits: u32,
    style: Style,
    warns: bool,
    report: Option<&'static str>,
    files: &'static [&'static str],
}

const ASKED: [Row; 6] = [
    Row {
        words: &[],
        pivots: 10_000,
        conflicts: 20_000,
        digits: 6,
        style: Style::Words,
        warns: true,
        report: None,
        files: &[],
    },
    Row {
        words: &["--digits", "3", "-", "--report=r", "--pivots=0", "--quiet"],
        pivots: 0,
        conflicts: 20_000,
        digits: 3,
        style: Style::Values,
        warns: true,
        report: Some("r"),
        files: &["-"],
    },
    Row {
        words: &["a", "--json", "--no-warnings", "--conflicts", "7", "b"],
        pivots: 10_000,
        conflicts: 7,
        digits: 6,
        style: Style::Json,
        warns: false,
        report: None,
        files: &["a", "b"],
    },
    Row {
        words: &[
            "--quiet=exact",
            "--no-warnings=or,interval,twice,name,unstated,condition",
        ],
        pivots: 10_000,
        conflicts: 20_000,
        digits: 6,
        style: Style::Exact,
        warns: false,
        report: None,
        files: &[],
    },
    Row {
        words: &["--report", "-", "--pivots", "5"],
        pivots: 5,
        conflicts: 20_000,
        digits: 6,
        style: Style::Report,
        warns: true,
        report: None,
        files: &[],
    },
    Row {
        words: &["--", "--help"],
        pivots: 10_000,
        conflicts: 20_000,
        digits: 6,
        style: Style::Words,
        warns: true,
        report: None,
        files: &["--help"],
    },
];

// Whether the settings are those of a row.
fn are_settings(settings: Settings, row: &Row) -> bool {
    settings.limits.pivots == row.pivots
        && settings.limits.conflicts == row.conflicts
        && settings.digits == row.digits
        && settings.style == row.style
        && settings.reports == row.report.is_some()
        && settings.warns == Wanted::all(row.warns)
}

// Whether just two kinds of warnings are left out.
fn is_without_two(asked: Option<Asked>) -> bool {
    let due = Wanted::all(true)
        .without(WarningKind::Or)
        .without(WarningKind::Name);
    match asked {
        Some(asked) => asked.settings.warns == due,
        None => false,
    }
}

// Whether words ask for the sentences on which bounds rest, and for distributions that reach them.
fn details_asked(alloc: Global, words: &[&'static str]) -> Option<(bool, bool)> {
    let settings = asked(alloc, words)?.settings;
    Some((settings.tells_support, settings.tells_examples))
}

#[test]
fn what_stands_beneath_bounds_is_asked_for(rt: HostRuntime) -> Result<(), Fail> {
    assert!(rt; details_asked(rt.alloc(), &["--why", "a"]) == Some((true, false)));
    assert!(rt; details_asked(rt.alloc(), &["a", "--example"]) == Some((false, true)));
    assert!(rt; details_asked(rt.alloc(), &["--example", "--why"]) == Some((true, true)));
    Ok(())
}

#[test]
fn kinds_of_warnings_are_left_out(rt: HostRuntime) -> Result<(), Fail> {
    let alloc = rt.alloc();
    assert!(rt; is_without_two(asked(alloc, &["--no-warnings=or,name", "-"])));
    Ok(())
}

// Whether a report goes where a row says.
fn is_report(file: &Option<String>, row: &Row) -> bool {
    match (file, row.report) {
        (Some(file), Some(due)) => file.as_str() == due,
        (None, None) => true,
        _ => false,
    }
}

// Whether the files are these.
fn are_files(files: &[String], due: &[&'static str]) -> bool {
    files.len() == due.len()
        && files
            .iter()
            .zip(due)
            .all(|(file, name)| file.as_str() == *name)
}

// Whether words ask for what a row says.
fn is_asked(alloc: Global, row: &Row) -> bool {
    match asked(alloc, row.words) {
        Some(asked) => {
            are_settings(asked.settings, row)
                && is_report(&asked.report, row)
                && are_files(&asked.files, row.files)
        }
        None => false,
    }
}

#[test]
fn words_ask_for_answers(rt: HostRuntime) {
    assert!(rt; ASKED.iter().all(|row| is_asked(rt.alloc(), row)));
}

fn texts_are_asked(alloc: Global) -> bool {
    matches!(
        request(alloc, &["a", "--help", "--no"]),
        Some(Request::Help)
    ) && matches!(request(alloc, &["--version"]), Some(Request::Version))
}

#[test]
fn words_ask_for_texts(rt: HostRuntime) {
    assert!(rt; texts_are_asked(rt.alloc()));
}

// Whether words ask for the line of progress.
fn tells_progress(alloc: Global, words: &[&'static str]) -> Option<bool> {
    Some(asked(alloc, words)?.tells_progress)
}

#[test]
fn progress_is_left_out(rt: HostRuntime) {
    let alloc = rt.alloc();
    assert!(rt; tells_progress(alloc, &["--no-progress"]) == Some(false));
    assert!(rt; tells_progress(alloc, &["a"]) == Some(true));
}

// Words that ask for nothing, and what is said of them.
const KINDS: &str = "--no-warnings takes kinds: or, interval, twice, name, unstated, condition";

const FAULTS: [(&[&'static str], &str); 24] = [
    (&["--digits", "19"], "--digits takes a number from 1 to 18"),
    (&["--digits=0"], "--digits takes a number from 1 to 18"),
    (&["--digits=+5"], "--digits takes a number from 1 to 18"),
    (
        &["--pivots", "007"],
        "--pivots takes a number from 0 to 1000000",
    ),
    (
        &["--conflicts=00"],
        "--conflicts takes a number from 0 to 1099511627776",
    ),
    (
        &["--pivots", "1000001"],
        "--pivots takes a number from 0 to 1000000",
    ),
    (
        &["--conflicts"],
        "--conflicts takes a number from 0 to 1099511627776",
    ),
    (
        &["--report"],
        "--report takes a file, or - for standard output",
    ),
    (
        &["--json", "--report", "-"],
        "--quiet, --json and --report - don't go together",
    ),
    (&["--report", "r", "a", "b"], "--report takes one problem"),
    (&["a", "--report", "-", "b"], "--report takes one problem"),
    (&["--report", "r", "--report=s"], "--report stands twice"),
    (
        &["--report", "a", "a"],
        "--report FILE is the problem's file",
    ),
    (&["--report", "r", "--report", "-"], "--report stands twice"),
    (&["--report", "-", "--report", "r"], "--report stands twice"),
    (&["--report", "-", "--report=-"], "--report stands twice"),
    (
        &["--quite", "a"],
        "the option --quite is unknown; is --quiet meant?",
    ),
    (&["--colour", "a"], "the option --colour is unknown"),
    (
        &["--quiet=exakt", "a"],
        "the option --quiet=exakt is unknown; is --quiet meant?",
    ),
    (
        &["--quiet=exact", "--quiet"],
        "--quiet, --json and --report - don't go together",
    ),
    (&["--no-warnings=or,", "a"], KINDS),
    (
        &["--no-warnings=or,twise"],
        "the kind of warnings twise is unknown; is twice meant?",
    ),
    (&["--no-warnings=or,or,or,or,or,or,or"], KINDS),
    (&["--\u{202e}x=1", "a"], "the option --?x=1 is unknown"),
];

// Whether this is said of words.
fn is_refused(alloc: Global, words: &[&'static str], due: &str) -> bool {
    match fault(alloc, words) {
        Some(fault) => fault.as_str() == due,
        None => false,
    }
}

// Whether a refusal has this number, and this is said of it.
fn is_told(alloc: Global, refused: &Refused, number: u8, due: &str) -> bool {
    match format!(in alloc; "{refused}") {
        Ok(text) => refused.status() == number && text.as_str() == due,
        Err(_) => false,
    }
}

fn are_told(alloc: Global) -> bool {
    is_told(alloc, &Refused::Wrong("a fault"), 2, "a fault")
        && is_told(alloc, &Refused::NotText, 10, "an argument isn't UTF-8")
        && is_told(alloc, &Refused::NoWords, 10, "the arguments can't be had")
        && is_told(alloc, &Refused::NoMemory, 7, "not enough memory")
}

#[test]
fn refusals_have_numbers(rt: HostRuntime) {
    assert!(rt; are_told(rt.alloc()));
}

#[test]
fn how_far_an_answer_is_is_told(rt: HostRuntime) -> Result<(), Fail> {
    let progress = Progress {
        worlds: 554,
        gap: 0.02125,
    };
    let figures = figures_of(rt.alloc(), ClaimKind::Upper, progress)?;
    assert!(rt; figures.as_str() == ", upper bound: 554 worlds, gap 0.0213");
    Ok(())
}

#[test]
fn other_words_are_refused(rt: HostRuntime) {
    let alloc = rt.alloc();
    assert!(rt; FAULTS.iter().all(|row| is_refused(alloc, row.0, row.1)));
}

#[test]
fn a_limit_of_time_is_asked_for(rt: HostRuntime) -> Result<(), Fail> {
    let alloc = rt.alloc();
    let timed = asked(alloc, &["--time-limit", "86400"]).expect(&rt, "answers");
    assert!(rt; timed.seconds == Some(86_400) && timed.settings.is_timed);
    let untimed = asked(alloc, &["a"]).expect(&rt, "answers");
    assert!(rt; untimed.seconds == None && !untimed.settings.is_timed);
    for words in [
        ["--time-limit", "0"],
        ["--time-limit", "86401"],
        ["--time-limit", "1.5"],
        ["--time-limit", "+5"],
        ["--time-limit", "05"],
    ] {
        let fault = fault(alloc, &words).expect(&rt, "a fault");
        assert!(rt; fault.as_str() == "--time-limit takes a number of seconds from 1 to 86400");
    }
    Ok(())
}

/// Answers with these statuses, one after the other.
#[derive(Drop)]
struct Told {
    statuses: &'static [Status],
    answered: usize,
}

impl Answering for Told {
    ghost answers = { λ _ _ _ _. Unit {0} };

    fn answer(&mut self, _file: &str) -> Status {
        let status = self.statuses.get(self.answered).copied();
        self.answered = self.answered.saturating_add(1);
        status.unwrap_or(Status::Done)
    }
}

// Whether so many problems are answered for words by these statuses, with this number behind them.
fn is_number_behind(
    alloc: Global,
    words: &[&'static str],
    statuses: &'static [Status],
    answered: usize,
    number: u8,
) -> bool {
    let mut told = Told {
        statuses,
        answered: 0,
    };
    match words_of(alloc, words) {
        Some(files) => answer_all(&mut told, &files) == number && told.answered == answered,
        None => false,
    }
}

const OPEN: &[Status] = &[Status::Done, Status::Unfinished, Status::Inconsistent];

const UNWRITTEN: &[Status] = &[Status::ReadFault, Status::WriteFault, Status::NoMemory];

#[test]
fn the_greatest_status_is_the_number(rt: HostRuntime) {
    let alloc = rt.alloc();
    assert!(rt; is_number_behind(alloc, &["a", "b", "c"], OPEN, 3, 4));
    assert!(rt; is_number_behind(alloc, &["a", "b", "c"], UNWRITTEN, 2, 6));
    assert!(rt; is_number_behind(alloc, &[], &[Status::Inconsistent], 1, 1));
}
