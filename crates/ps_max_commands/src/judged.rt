//! The reply to clauses with an answer behind them.
ghost use Rattle.std.specs.Prelude.{IfOk};
ghost use Rattle.ps_max_commands.specs.Due.{DueAnswer, DueCheckMaxSat, DueChecked, IsJudgedBy};
ghost use Rattle.ps_max_commands.specs.Ends.{EndsCheckMaxSat};
ghost use Rattle.ps_max_commands.specs.Lines.{IsRefusal};
ghost use Rattle.ps_max_commands.specs.Replies.{IsShortReply, output_of};
ghost use Rattle.ps_messages.specs.Messages.{message_output};
ghost use Rattle.ps_wcnf.specs.Limits.{IsText};

use crate::reply::MaxReply;
use crate::splitting::split_answer;
use ps_answer::ReportError;
use ps_io::NoMemory;
use ps_max_answer::{MaxAnswer, MaxError, check_max};
use ps_max_text::read_max;
use ps_messages::Message;
use ps_wcnf::{WcnfError, WcnfText, read_wcnf};
use std::alloc::Global;

// The message for a reason against an answer.
fn refuse(alloc: Global, reason: MaxError) -> Result<Message, NoMemory>
    ensures refusal { IfOk result (λ m. IsRefusal reason (message_output m)) }
    ensures status { IfOk result (λ m. EndsCheckMaxSat m.status) }
{
    match reason {
        MaxError::NoMemory => Err(NoMemory),
        _ => Ok(Message::refused_maxsat(alloc, reason)?),
    }
}

// The message for an answer.
fn judge(alloc: Global, text: &WcnfText, answer: &MaxAnswer) -> Result<Message, NoMemory>
    requires { IsText text.now }
    ensures judged { IfOk result (λ m. IsJudgedBy text.now answer.now (message_output m)) }
    ensures status { IfOk result (λ m. EndsCheckMaxSat m.status) }
{
    match check_max(alloc, text, answer) {
        Ok(accepted) => Ok(Message::accepted_answer(alloc, accepted)?),
        Err(reason) => Ok(refuse(alloc, reason)?),
    }
}

// The message for the bytes of an answer.
fn judge_bytes(alloc: Global, text: &WcnfText, bytes: &[u8]) -> Result<Message, NoMemory>
    requires { IsText text.now }
    ensures due { IfOk result (λ m. DueAnswer text.now bytes.now (message_output m)) }
    ensures status { IfOk result (λ m. EndsCheckMaxSat m.status) }
{
    match read_max(alloc, bytes) {
        Ok(answer) => judge(alloc, text, &answer),
        Err(ReportError::At { kind, line }) => Ok(Message::refused_line(alloc, kind, line)?),
        Err(ReportError::NoMemory) => Err(NoMemory),
    }
}

// The message for the bytes of clauses, and those of an answer.
fn check_bytes(alloc: Global, clauses: &[u8], answer: &[u8]) -> Result<Message, NoMemory>
    ensures due { IfOk result (λ m. DueChecked clauses.now answer.now (message_output m)) }
    ensures status { IfOk result (λ m. EndsCheckMaxSat m.status) }
{
    match read_wcnf(alloc, clauses) {
        Ok(text) => judge_bytes(alloc, &text, answer),
        Err(WcnfError::At { kind, line }) => Ok(Message::unreadable_clauses(alloc, kind, line)?),
        Err(WcnfError::NoMemory) => Err(NoMemory),
    }
}

/// The reply to all bytes of clauses with an answer behind them.
pub fn reply_to_check_maxsat(alloc: Global, bytes: &[u8]) -> Result<MaxReply, NoMemory>
    ensures due { IfOk result (λ r. DueCheckMaxSat bytes.now (output_of r)) }
    ensures status { IfOk result (λ r. EndsCheckMaxSat (output_of r).status) }
    ensures short { IfOk result IsShortReply }
{
    let (clauses, answer) = split_answer(bytes);
    Ok(MaxReply::Line(check_bytes(alloc, clauses, answer)?))
}
