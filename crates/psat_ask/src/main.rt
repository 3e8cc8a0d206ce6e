//! Answers problems for people: in words and numbers, with messages that mend.
#![tactic(auto)]

mod answering;
mod company;
mod inlet;
mod kinds;
mod meant;
mod number;
mod options;
mod pieces;
mod progress;
mod reasons;
mod refused;
mod report_file;
mod request;
mod same_file;
mod statuses;
mod telling;
#[cfg(test)]
mod tests;
mod texts;

ghost use Rattle.std.specs.Prelude.{◌≡◌, Err, IfErr, IfOk};
ghost use Rattle.std.specs.IoError.{error_kind};
ghost use Rattle.psat_ask.specs.Refusals.{refused_by};
ghost use Rattle.psat_ask.specs.Requests.{HasSettings};

use crate::answering::{answer_asked, show};
use crate::refused::{Refused, WRONG_WORDS};
use crate::request::{Request, request_of};
use crate::telling::tell_fault;
use crate::texts::{HELP, VERSION};
use std::alloc::Global;
use std::env::{self, Args};
use std::io;
use std::process::ExitCode;

// What the words behind the program's name, which is the first, ask for.
fn request_behind_name(alloc: Global, all: io::Result<Args>) -> Result<Request, Refused>
    ensures unhad { IfErr all (λ e. result ≡ Err (refused_by (error_kind e))) }
    ensures settings { IfOk result HasSettings }
{
    let all = match all {
        Ok(all) => all,
        Err(error) => return Err(Refused::by_system(error.kind())),
    };
    let mut words = Vec::new(alloc);
    for word in all.skip(1) {
        words.push(word)?;
    }
    request_of(alloc, &words)
}

// Tells why nothing is asked for. Where standard error fails nothing can be told.
fn tell_refused(rt: &HostRuntime, refused: &Refused) {
    let _ = eprintln!(rt; "psat_ask: {refused}");
    if refused.status() == WRONG_WORDS {
        tell_fault(rt, "--help shows the options");
    }
}

fn main(rt: HostRuntime) -> ExitCode {
    let status = match request_behind_name(rt.alloc(), env::args(&rt)) {
        Ok(Request::Help) => show(&rt, HELP),
        Ok(Request::Version) => show(&rt, VERSION),
        Ok(Request::Ask(asked)) => answer_asked(&rt, &asked),
        Err(refused) => {
            tell_refused(&rt, &refused);
            refused.status()
        }
    };
    ExitCode::from(status)
}
