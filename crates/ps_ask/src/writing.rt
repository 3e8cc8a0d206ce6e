//! Writes what is due.
ghost use Rattle.std.specs.Prelude.{[]};
ghost use Rattle.ps_io.specs.Causes.{CountsFault};
ghost use Rattle.ps_io.specs.Transfer.{Writes};
ghost use Rattle.ps_ask.specs.Replies.{AreShortInTime, IsShort, WritesTo, last_of, report_by};
ghost use Rattle.ps_ask.specs.Shown.{report_of};

use crate::late::is_late;
use crate::reply::Reply;
use crate::settings::Settings;
use ps_answer::Answer;
use ps_io::{Lines, Sink, WriteFault, write_all};
use ps_report::write_report;
use std::alloc::Global;

// Writes the report of an answer, line by line; none where time was over before the answer was
// whole. The writer of lines never wants memory.
fn write_answer<O: Sink>(
    alloc: Global,
    sink: &mut O,
    timed: bool,
    answer: &Answer,
) -> Result<(), WriteFault>
    requires short { AreShortInTime timed answer.now }
    ensures wrote { WritesTo O.Sink sink.old sink.new result (report_of timed answer.now) }
    ensures faults { CountsFault result (O.faults sink.old) (O.faults sink.new) }
{
    if is_late(timed, answer) {
        return write_all(sink, &[]);
    }
    let mut lines = Lines::new(alloc, sink).unwrap();
    write_report(answer, &mut lines)
}

/// Writes what is shown at the end. After a fault a proper prefix of it was written.
pub fn write_last<O: Sink>(
    alloc: Global,
    sink: &mut O,
    timed: bool,
    reply: &Reply,
) -> Result<(), WriteFault>
    requires short { IsShort timed reply.now }
    ensures wrote { Writes result (O.written sink.old) (O.written sink.new)
        (last_of timed reply.now) }
    ensures faults { CountsFault result (O.faults sink.old) (O.faults sink.new) }
{
    match reply {
        Reply::Nothing => write_all(sink, &[]),
        Reply::Text { text, .. } => write_all(sink, text),
        Reply::Report(answer) => write_answer(alloc, sink, timed, answer),
    }
}

/// Writes the report that goes beside what is shown, where one is wanted.
pub fn write_beside<R: Sink>(
    alloc: Global,
    sink: &mut R,
    settings: Settings,
    reply: &Reply,
) -> Result<(), WriteFault>
    requires short { IsShort settings.is_timed reply.now }
    ensures done { WritesTo R.Sink sink.old sink.new result (report_by settings reply.now) }
    ensures faults { CountsFault result (R.faults sink.old) (R.faults sink.new) }
{
    if !settings.reports {
        return write_all(sink, &[]);
    }
    match reply {
        Reply::Nothing => write_all(sink, &[]),
        Reply::Text { answer, .. } | Reply::Report(answer) => {
            write_answer(alloc, sink, settings.is_timed, answer)
        }
    }
}
