//! Answers problems one after the other.
ghost use Rattle.ps_ask.specs.Shown.{AreSettings};

use crate::company::Beside;
use crate::inlet::Inlet;
use crate::refused::WRONG_WORDS;
use crate::report_file::{Failure, ReportFile};
use crate::request::Asked;
use crate::same_file::{STDIN, are_same_file, keeps_bytes};
use crate::statuses::{Answering, answer_all};
use crate::telling::{tell, tell_fault, tell_why};
use crate::texts::{AWAITED, OWN_REPORT};
use ps_ask::{Settings, Sinks, Status, Style, ask};
use ps_io::{MemSink, Outlet, Sink, Source, StdSink, StdSource, write_all};
use ps_names::shown_name;
use std::fs::File;
use std::io::{IsTerminal, Read, Stdout};

/// The name of standard input in messages and objects.
const INPUT: &str = "standard input";

/// What is told where memory is lacking.
const NO_MEMORY: &str = "not enough memory";

/// The name of standard output in messages.
const OUTPUT: &str = "standard output";

// Tells that standard output failed, but where its reader has gone, as `head` does: it wants nothing
// more, also no message.
fn tell_output(rt: &HostRuntime, has_reader_gone: bool) {
    if !has_reader_gone {
        tell(rt, OUTPUT, "writing failed");
    }
}

// Tells why a report isn't in its file.
fn tell_failure(rt: &HostRuntime, file: &str, failure: Failure) {
    match failure {
        Failure::Created(kind) => tell_why(rt, file, "can't be created", Some(kind)),
        Failure::LinkToNothing => tell(rt, file, "can't be created: a symbolic link to no file"),
        Failure::Written(kind) => tell_why(rt, file, "writing failed", Some(kind)),
    }
}

// Whether a report is wanted, alone or beside what is shown.
fn wants_report(settings: Settings) -> bool {
    settings.reports || settings.style == Style::Report
}

// Tells what failed in the answer to an input, but for reading it and for its report.
fn tell_status(rt: &HostRuntime, asked: &Asked, name: &str, ended: Ended) {
    match ended.status {
        Status::WriteFault => tell_output(rt, ended.has_reader_gone),
        Status::NoMemory => tell(rt, name, NO_MEMORY),
        Status::Late if wants_report(asked.settings) => {
            tell(rt, name, "no report: not finished within the time limit");
        }
        _ => {}
    }
}

// How an answer ended, and whether the reader of standard output has gone.
#[derive(Clone, Copy, Drop)]
struct Ended {
    status: Status,
    has_reader_gone: bool,
}

// Answers an input over an outlet, with its report to a sink.
fn answer_over<I: Source, R: Sink + Drop>(
    rt: &HostRuntime,
    asked: &Asked,
    name: &str,
    source: &mut I,
    outlet: &mut Outlet<Stdout>,
    report: R,
) -> Status
    requires { AreSettings asked.now.settings }
{
    let mut sinks = Sinks {
        shown: StdSink::new(outlet),
        report,
    };
    let mut beside = Beside::new(rt, asked.seconds, asked.tells_progress);
    ask(
        rt.alloc(),
        asked.settings,
        name,
        source,
        &mut sinks,
        &mut beside,
    )
}

// Answers an input, with its report to a sink.
fn answer_to<I: Source, R: Sink + Drop>(
    rt: &HostRuntime,
    asked: &Asked,
    name: &str,
    source: &mut I,
    report: R,
) -> Ended
    requires { AreSettings asked.now.settings }
{
    let mut outlet = Outlet::new(rt.stdout());
    let status = answer_over(rt, asked, name, source, &mut outlet, report);
    Ended {
        status,
        has_reader_gone: outlet.has_reader_gone(),
    }
}

// Answers an input, with its report to a file.
fn answer_with_report<I: Source>(
    rt: &HostRuntime,
    asked: &Asked,
    name: &str,
    source: &mut I,
    file: &str,
) -> Ended
    requires { AreSettings asked.now.settings }
{
    let mut report = ReportFile::new(rt, file);
    let ended = answer_to(rt, asked, name, source, StdSink::new(&mut report));
    match report.finish(ended.status != Status::ReportFault) {
        Ok(()) => ended,
        Err(failure) => {
            tell_failure(rt, file, failure);
            Ended {
                status: Status::ReportFault,
                ..ended
            }
        }
    }
}

// Answers an input, with its report to a file where one is wanted.
fn answer_source<I: Source>(rt: &HostRuntime, asked: &Asked, name: &str, source: &mut I) -> Status
    requires { AreSettings asked.now.settings }
{
    let alloc = rt.alloc();
    let ended = match &asked.report {
        Some(file) => answer_with_report(rt, asked, name, source, file.as_str()),
        None => {
            let Ok(none) = MemSink::new(alloc, 1, Vec::new(alloc), 0) else {
                tell(rt, name, NO_MEMORY);
                return Status::NoMemory;
            };
            answer_to(rt, asked, name, source, none)
        }
    };
    tell_status(rt, asked, name, ended);
    ended.status
}

// Answers what a reader reads, under a name.
fn answer_named<I: Read + Drop>(rt: &HostRuntime, asked: &Asked, name: &str, reader: I) -> Status
    requires { AreSettings asked.now.settings }
{
    let mut inlet = Inlet::new(reader);
    let mut input = StdSource::new(&mut inlet);
    let status = answer_source(rt, asked, name, &mut input);
    if status == Status::ReadFault {
        tell_why(rt, name, "reading failed", inlet.why());
    }
    status
}

// Answers what a reader reads, under its name as names are shown. An object of JSON has it as it is.
fn answer_reader<I: Read + Drop>(rt: &HostRuntime, asked: &Asked, name: &str, reader: I) -> Status
    requires { AreSettings asked.now.settings }
{
    if asked.settings.style == Style::Json {
        return answer_named(rt, asked, name, reader);
    }
    match shown_name(rt.alloc(), name) {
        Ok(shown) => answer_named(rt, asked, shown.as_str(), reader),
        Err(_) => {
            tell(rt, name, NO_MEMORY);
            Status::NoMemory
        }
    }
}

// Answers the problem of a file.
fn answer_file(rt: &HostRuntime, asked: &Asked, file: &str) -> Status
    requires { AreSettings asked.now.settings }
{
    if file == "-" {
        if rt.stdin().is_terminal() {
            tell_fault(rt, AWAITED);
        }
        return answer_reader(rt, asked, INPUT, rt.stdin());
    }
    match File::open(rt, file) {
        Ok(opened) => answer_reader(rt, asked, file, opened),
        Err(error) => {
            tell_why(rt, file, "can't be opened", Some(error.kind()));
            Status::ReadFault
        }
    }
}

// The name that the system gives to the file of a problem.
fn system_name(file: &str) -> &str {
    if file == "-" { STDIN } else { file }
}

// Whether the report would take the place of a problem: it goes to the file that a problem is read
// from, by whatever name.
fn takes_place_of_problem(rt: &HostRuntime, asked: &Asked) -> bool {
    let Some(report) = &asked.report else {
        return false;
    };
    let problem = match asked.files.first() {
        Some(file) => system_name(file.as_str()),
        None => STDIN,
    };
    keeps_bytes(rt, report.as_str()) && are_same_file(rt, report.as_str(), problem)
}

// Writes texts one behind the other: whether they are written whole. Where they aren't, it is told.
fn write_texts(rt: &HostRuntime, texts: &[&str]) -> bool {
    let mut outlet = Outlet::new(rt.stdout());
    let mut output = StdSink::new(&mut outlet);
    for text in texts {
        if write_all(&mut output, text.as_bytes()).is_err() {
            tell_output(rt, outlet.has_reader_gone());
            return false;
        }
    }
    true
}

// Writes the line that stands before an answer. Where it isn't written, why.
fn write_heading(rt: &HostRuntime, file: &str) -> Option<Status> {
    let Ok(name) = shown_name(rt.alloc(), file) else {
        tell(rt, file, NO_MEMORY);
        return Some(Status::NoMemory);
    };
    if write_texts(rt, &["== ", name.as_str(), "\n"]) {
        None
    } else {
        Some(Status::WriteFault)
    }
}

/// Writes a text alone: the status.
pub fn show(rt: &HostRuntime, text: &str) -> u8 {
    if write_texts(rt, &[text]) {
        return 0;
    }
    Status::WriteFault.number()
}

// Answers the problem of a file, behind its name where there are several, but not in JSON.
fn answer_under_heading(rt: &HostRuntime, asked: &Asked, file: &str) -> Status
    requires { AreSettings asked.now.settings }
{
    if asked.files.len() > 1 && asked.settings.style != Style::Json {
        if let Some(status) = write_heading(rt, file) {
            return status;
        }
    }
    answer_file(rt, asked, file)
}

/// The answers of the program to the problems of files.
#[derive(Drop)]
struct Answers<'a> {
    rt: &'a HostRuntime,
    asked: &'a Asked,
    ghost lawful: { AreSettings asked.now.settings },
}

impl<'a> Answering for Answers<'a> {
    ghost answers = { λ _ _ _ _. Unit {0} };

    fn answer(&mut self, file: &str) -> Status {
        answer_under_heading(self.rt, self.asked, file)
    }
}

/// Answers what is asked for: the number with which the program exits, the greatest status of an
/// answer. Where the report would take the place of the problem nothing is read.
pub fn answer_asked(rt: &HostRuntime, asked: &Asked) -> u8
    requires { AreSettings asked.now.settings }
{
    if takes_place_of_problem(rt, asked) {
        tell_fault(rt, OWN_REPORT);
        return WRONG_WORDS;
    }
    answer_all(&mut Answers { rt, asked }, &asked.files)
}
