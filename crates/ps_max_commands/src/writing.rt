//! Writes a reply.
ghost use Rattle.std.specs.List.{AllByRecursion};
ghost use Rattle.ps_io.specs.Causes.{CountsFault};
ghost use Rattle.ps_io.specs.Transfer.{Writes};
ghost use Rattle.ps_max_text.specs.Texts.{IsShortLine, max_lines, max_text};
ghost use Rattle.ps_max_commands.specs.Replies.{IsShortReply, output_of};

use crate::reply::MaxReply;
use ps_io::{Lines, Sink, WriteFault, write_all};
use ps_max_answer::MaxAnswer;
use ps_max_text::write_max;
use std::alloc::Global;

// Writes the text of an answer, line by line. The writer of lines never wants memory.
fn write_answer<O: Sink>(alloc: Global, sink: &mut O, answer: &MaxAnswer) -> Result<(), WriteFault>
    requires short { AllByRecursion IsShortLine (max_lines answer.now) }
    ensures wrote { Writes result (O.written sink.old) (O.written sink.new)
        (max_text answer.now) }
    ensures faults { CountsFault result (O.faults sink.old) (O.faults sink.new) }
{
    let mut lines = Lines::new(alloc, sink).unwrap();
    write_max(answer, &mut lines)
}

/// Writes a reply. After a fault a proper prefix of it was written.
pub fn write_max_reply<O: Sink>(
    alloc: Global,
    sink: &mut O,
    reply: &MaxReply,
) -> Result<(), WriteFault>
    requires short { IsShortReply reply.now }
    ensures wrote { Writes result (O.written sink.old) (O.written sink.new)
        (output_of reply.now).text }
    ensures faults { CountsFault result (O.faults sink.old) (O.faults sink.new) }
{
    match reply {
        MaxReply::Line(message) => write_all(sink, message.text.as_bytes()),
        MaxReply::Answer(answer) => write_answer(alloc, sink, answer),
    }
}
