//! The reply to an input with a report.
ghost use Rattle.std.specs.Prelude.{IfOk};
ghost use Rattle.ps_commands.specs.Replies.{IsDueFor, IsDueWhere, IsShortReply, output_of};
ghost use Rattle.ps_messages.specs.Messages.{message_output};
ghost use Rattle.ps_commands.specs.Replies.{reply_status, status_of};
ghost use Rattle.ps_commands.specs.Runs.{CountsReads, Took};
ghost use Rattle.ps_commands.specs.Statuses.{EndsCheck};

use crate::command::Command;
use crate::reply::Reply;
use crate::reply_error::ReplyError;
use ps_check::{Checked, check_stream};
use ps_io::{NoMemory, ReadAllError, Source};
use ps_messages::Message;
use std::alloc::Global;

/// The most bytes in which a problem is looked for: one fewer than a line or a column can number.
pub const MOST_SEARCHED: usize = ps_check::MOST_SEARCHED;

// The message for what is found of an input.
fn message_of(alloc: Global, found: Checked) -> Result<Message, NoMemory>
    // It is due for each input of which this is found.
    ensures due { IfOk result (λ r. IsDueWhere found (message_output r)) }
    ensures status { IfOk result (λ r. EndsCheck r.status) }
{
    match found {
        Checked::Accepted(accepted) => Ok(Message::accepted_answer(alloc, accepted)?),
        Checked::Refused(refusal) => Ok(Message::refused_claim(alloc, refusal)?),
        Checked::RefusedLine { kind, line } => Ok(Message::refused_line(alloc, kind, line)?),
        Checked::Unreadable { kind, line, column } => {
            Ok(Message::unreadable(alloc, kind, line, column)?)
        }
    }
}

/// The reply to an input that is judged as it comes, and of which so many bytes are read at most, or
/// why there is none.
pub fn reply_to_check<I: Source>(
    alloc: Global,
    limit: u64,
    source: &mut I,
) -> Result<Reply, ReplyError>
    ensures due { IfOk result (λ r.
        IsDueFor (Command.Check limit) (I.left source.old) (output_of r)) }
    ensures took { Took limit (status_of result) (I.left source.old) (I.left source.new) }
    ensures status { IfOk result (λ r. EndsCheck (reply_status r)) }
    ensures short { IfOk result IsShortReply }
    ensures faults { CountsReads (I.faults source.old) (I.faults source.new) (status_of result) }
{
    match check_stream(alloc, source, limit) {
        Ok(found) => Ok(Reply::Line(message_of(alloc, found)?)),
        Err(ReadAllError::TooLong { .. }) => Ok(Reply::Line(Message::too_long(alloc, limit)?)),
        Err(ReadAllError::Fault) => Err(ReplyError::ReadFault),
        Err(ReadAllError::NoMemory) => Err(ReplyError::NoMemory),
    }
}
