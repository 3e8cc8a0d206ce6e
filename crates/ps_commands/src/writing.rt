//! Writes what is due.
ghost use Rattle.std.specs.Prelude.{◌≡◌, [], IfSome};
ghost use Rattle.ps_io.specs.Causes.{CountsFault};
ghost use Rattle.ps_io.specs.Lines.{text_of};
ghost use Rattle.ps_io.specs.Transfer.{Writes};
ghost use Rattle.ps_io.specs.Wrote.{Wrote};
ghost use Rattle.ps_explain.specs.Texts.{HasShortLines};
ghost use Rattle.ps_query.specs.Solutions.{AreShortLines};
ghost use Rattle.ps_commands.specs.Due.{comment_of, explained_lines, explanation_of, report_of};
ghost use Rattle.ps_commands.specs.Replies.{IsShortReply, made_bytes, output_of};

use crate::made::MadeProblem;
use crate::reply::Reply;
use ps_answer::Answer;
use ps_explain::{Explained, write_explanation};
use ps_io::{Lines, Sink, WriteFault, write_all};
use ps_max_commands::write_max_reply;
use ps_report::write_report;
use std::alloc::Global;

// Writes the report of an answer, line by line. The writer of lines never wants memory.
fn write_answer<O: Sink>(alloc: Global, sink: &mut O, answer: &Answer) -> Result<(), WriteFault>
    requires short { AreShortLines answer.now }
    ensures wrote { Writes result (O.written sink.old) (O.written sink.new)
        (report_of answer.now) }
    ensures faults { CountsFault result (O.faults sink.old) (O.faults sink.new) }
{
    let mut lines = Lines::new(alloc, sink).unwrap();
    write_report(answer, &mut lines)
}

// Writes the lines of an explanation.
#[tactic(auto, unfolding(crate::specs::Due::explained_lines))]
fn write_lines<O: Sink>(found: &Explained, lines: &mut Lines<'_, O>) -> Result<(), WriteFault>
    requires empty { text_of lines.old ≡ [] }
    requires short { HasShortLines found.now }
    ensures { Wrote O.written O.faults lines.old lines.new result (explained_lines found.now) }
{
    write_explanation(found, lines)
}

// Writes an explanation, in the same way.
fn write_explained<O: Sink>(
    alloc: Global,
    sink: &mut O,
    found: &Explained,
) -> Result<(), WriteFault>
    requires short { HasShortLines found.now }
    ensures wrote { Writes result (O.written sink.old) (O.written sink.new)
        (explanation_of found.now) }
    ensures faults { CountsFault result (O.faults sink.old) (O.faults sink.new) }
{
    let mut lines = Lines::new(alloc, sink).unwrap();
    write_lines(found, &mut lines)
}

// Writes the report of an answer with a mark before each line.
fn write_comment<O: Sink>(alloc: Global, sink: &mut O, answer: &Answer) -> Result<(), WriteFault>
    requires short { AreShortLines answer.now }
    ensures wrote { Writes result (O.written sink.old) (O.written sink.new)
        (comment_of answer.now) }
    ensures faults { CountsFault result (O.faults sink.old) (O.faults sink.new) }
{
    let mut lines = Lines::new(alloc, sink).unwrap();
    lines.comment();
    write_report(answer, &mut lines)
}

// Writes a made problem with its summary, and behind them the report of an open answer.
fn write_made<O: Sink>(alloc: Global, sink: &mut O, made: &MadeProblem) -> Result<(), WriteFault>
    requires short { IfSome made.now.unfinished AreShortLines }
    ensures wrote { Writes result (O.written sink.old) (O.written sink.new)
        (made_bytes made.now) }
    ensures faults { CountsFault result (O.faults sink.old) (O.faults sink.new) }
{
    write_all(sink, &made.text)?;
    match &made.unfinished {
        Some(answer) => write_comment(alloc, sink, answer),
        None => Ok(()),
    }
}

/// Writes a reply. After a fault a proper prefix of it was written.
pub fn write_reply<O: Sink>(alloc: Global, sink: &mut O, reply: &Reply) -> Result<(), WriteFault>
    requires short { IsShortReply reply.now }
    ensures wrote { Writes result (O.written sink.old) (O.written sink.new)
        (output_of reply.now).text }
    ensures faults { CountsFault result (O.faults sink.old) (O.faults sink.new) }
{
    match reply {
        Reply::Line(message) => write_all(sink, message.text.as_bytes()),
        Reply::Report(answer) => write_answer(alloc, sink, answer),
        Reply::Explanation(explained) => write_explained(alloc, sink, explained),
        Reply::Made(made) => write_made(alloc, sink, made),
        Reply::Upgraded(text) => write_all(sink, text),
        Reply::Weighted(reply) => write_max_reply(alloc, sink, reply),
    }
}
