//! The answer to an input.
ghost use Rattle.std.specs.Prelude.{◌≡◌, ◌≢◌, ◌≤◌, Err, IfOk, length};
ghost use Rattle.ps_ask.specs.declared.answering.TheConstants.{MOST_PROBLEM};
ghost use Rattle.ps_ask.specs.declared.reply.ReplyError.TheVariants as errors;
ghost use Rattle.ps_ask.specs.Statuses.{HasNoReport, IsSilent};
ghost use Rattle.ps_ask.specs.Fronts.{IsBegunText};
ghost use Rattle.ps_ask.specs.Shown.{AreSettings, CountsReads, CountsReports, Due, On};
ghost use Rattle.ps_ask.specs.Shown.{CountsWrites};
ghost use Rattle.ps_ask.specs.Reads.{Took};
ghost use Rattle.ps_ask.specs.Replies.{CountsReadsBy, CountsShown, Stops, IsShort, ShowsFor};
ghost use Rattle.ps_ask.specs.Replies.{Shows, Solves, Tells, status_with};

use crate::company::Company;
use crate::fronts::show_front;
use crate::notes::{Input, MISSING, length_noted, problem_noted, refusal_noted};
use crate::reply::{Reply, ReplyError};
use crate::settings::Settings;
use crate::shown::show_last;
use crate::sinks::Sinks;
use crate::status::Status;
use crate::writing::{write_beside, write_last};
use ps_io::{NoMemory, ReadAllError, Sink, Source, read_all};
use ps_problem::Problem;
use ps_read::{ReadError, read_whole};
use std::alloc::Global;

/// The most bytes of a problem.
pub const MOST_PROBLEM: u64 = 1 << 20;

// The reply to a problem, behind what is shown of its answer as it goes: guesses of the engine, and
// lawful runs where no guess is shown.
#[tactic(auto, using(crate::proofs::DueLaws::solved_after, crate::proofs::DueLaws::short_after))]
fn reply_to_problem<O: Sink, W: Company>(
    alloc: Global,
    settings: Settings,
    input: Input<'_>,
    problem: &Problem,
    sink: &mut O,
    watch: &mut W,
) -> Result<Reply, ReplyError>
    requires settings { AreSettings settings }
    ensures solved { Tells O.Sink sink.old sink.new
        (Solves settings input.entry problem.now result) }
    ensures ended { Stops O.Sink sink.old sink.new (IsBegunText settings problem.now) result }
    ensures short { IfOk result (IsShort settings.is_timed) }
    ensures faults { CountsShown result (O.faults sink.old) (O.faults sink.new) }
{
    match show_front(alloc, settings, input, problem, sink, watch) {
        Ok((answer, details)) => {
            let told = details.as_slice();
            match show_last(alloc, settings, input, problem, answer, told, watch) {
                Ok(reply) => Ok(reply),
                Err(NoMemory) => Err(ReplyError::NoMemory),
            }
        }
        Err(error) => Err(error),
    }
}

// Warns of what a problem may not mean, where warnings are wanted. Where memory for them is lacking
// that is noted.
fn warn_of_problem<W: Company>(
    alloc: Global,
    settings: Settings,
    input: Input<'_>,
    problem: &Problem,
    watch: &mut W,
) {
    match problem_noted(alloc, settings, input, problem) {
        Ok(text) => {
            if !text.is_empty() {
                watch.note(&text);
            }
        }
        Err(NoMemory) => watch.note(MISSING),
    }
}

// The reply to all bytes of an input, behind what is shown as it goes.
#[tactic(auto, using(crate::proofs::DueLaws::shown_for, crate::proofs::DueLaws::not_read, crate::proofs::DueLaws::unread_shown, crate::proofs::EndLaws::nothing_ended))]
fn reply_to_bytes<O: Sink, W: Company>(
    alloc: Global,
    settings: Settings,
    input: Input<'_>,
    sink: &mut O,
    watch: &mut W,
) -> Result<Reply, ReplyError>
    requires settings { AreSettings settings }
    requires few { length input.bytes.now ≤ MOST_PROBLEM }
    ensures shown { Tells O.Sink sink.old sink.new (ShowsFor settings input.entry result) }
    ensures short { IfOk result (IsShort settings.is_timed) }
    ensures read { result ≢ Err errors.ReadFault }
    ensures faults { CountsShown result (O.faults sink.old) (O.faults sink.new) }
{
    match read_whole(alloc, input.bytes) {
        Ok(problem) => {
            warn_of_problem(alloc, settings, input, &problem, watch);
            reply_to_problem(alloc, settings, input, &problem, sink, watch)
        }
        Err(ReadError::At { kind, line, column }) => {
            let Ok(text) = refusal_noted(alloc, input, kind, line, column) else {
                return Err(ReplyError::NoMemory);
            };
            watch.note(&text);
            Ok(Reply::Nothing)
        }
        Err(ReadError::NoMemory) => Err(ReplyError::NoMemory),
    }
}

// The reply to an input behind what is shown as it goes, or why there is none.
#[tactic(auto, using(crate::proofs::DueLaws::input_shown, crate::proofs::DueLaws::nothing_read, crate::proofs::DueLaws::nothing_kept, crate::proofs::DueLaws::long_shown, crate::proofs::DueLaws::reads_counted_by, crate::proofs::ReadLaws::took_by, crate::proofs::ReadLaws::took_more, crate::proofs::ReadLaws::took_long, crate::proofs::ReadLaws::took_less))]
fn reply_to<I: Source, O: Sink, W: Company>(
    alloc: Global,
    settings: Settings,
    name: &str,
    source: &mut I,
    sink: &mut O,
    watch: &mut W,
) -> Result<Reply, ReplyError>
    requires settings { AreSettings settings }
    ensures due { Tells O.Sink sink.old sink.new
        (Shows settings name.now (I.left source.old) result) }
    ensures short { IfOk result (IsShort settings.is_timed) }
    ensures silent { result ≡ Err errors.ReadFault → sink.new ≡ sink.old }
    ensures reads { CountsReadsBy I.Source source.old source.new settings.is_timed result }
    ensures read { Took (status_with settings.is_timed result)
        (I.left source.old) (I.left source.new) }
    ensures faults { CountsShown result (O.faults sink.old) (O.faults sink.new) }
{
    match read_all(alloc, source, MOST_PROBLEM) {
        Ok(bytes) => {
            let input = Input {
                name,
                bytes: &bytes,
            };
            reply_to_bytes(alloc, settings, input, sink, watch)
        }
        Err(ReadAllError::TooLong { .. }) => {
            let Ok(text) = length_noted(alloc, name, MOST_PROBLEM) else {
                return Err(ReplyError::NoMemory);
            };
            watch.note(&text);
            Ok(Reply::Nothing)
        }
        Err(ReadAllError::Fault) => Err(ReplyError::ReadFault),
        Err(ReadAllError::NoMemory) => Err(ReplyError::NoMemory),
    }
}

/// Answers an input: reads it whole, and writes what is shown of the answer to one sink, piece by
/// piece as soon as each is done, and its report to another where that is wanted. The watch tells
/// whether time is over; it is told messages and warnings, under the input's name, and how far the
/// answer is.
pub fn ask<I: Source, O: Sink, R: Sink, W: Company>(
    alloc: Global,
    settings: Settings,
    name: &str,
    source: &mut I,
    out: &mut Sinks<O, R>,
    watch: &mut W,
) -> Status
    requires settings { AreSettings settings }

    // What is written for the bytes that the source tells that it had left: an answer that is valid
    // and right for the problem that they spell, and nothing of a part that isn't judged; where
    // memory ran out or a write failed, the front of such an answer.
    ensures due { On O.Sink R.Sink out.old out.new
        (Due settings name.now (I.left source.old) result) }

    // An input is read whole, and of one with more bytes than a problem may have no more than one
    // read beyond them.
    ensures read { Took result (I.left source.old) (I.left source.new) }

    // Nothing is written where a read failed, and no report where what is shown could not be
    // written, or memory ran out.
    ensures silent { IsSilent result → out.new ≡ out.old }
    ensures unreported { HasNoReport result → out.new.report ≡ out.old.report }

    // A fault is answered exactly where the count of the source or of a sink rose, and then by one.
    ensures read_faults { CountsReads (I.faults source.old) (I.faults source.new) result }
    ensures write_faults { CountsWrites (O.faults out.old.shown) (O.faults out.new.shown)
        result }
    ensures reports { CountsReports (R.faults out.old.report) (R.faults out.new.report)
        result }
{
    let timed = settings.is_timed;
    let reply = match reply_to(alloc, settings, name, source, &mut out.shown, watch) {
        Ok(reply) => reply,
        Err(error) => {
            watch.clear();
            return error.status();
        }
    };
    watch.clear();
    match write_last(alloc, &mut out.shown, timed, &reply) {
        Ok(()) => match write_beside(alloc, &mut out.report, settings, &reply) {
            Ok(()) => reply.status(timed),
            Err(_) => Status::ReportFault,
        },
        Err(_) => Status::WriteFault,
    }
}
