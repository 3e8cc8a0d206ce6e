//! The reply to clauses of which an optimum is asked.
ghost use Rattle.std.specs.Prelude.{◌≤◌, IfOk};
ghost use Rattle.ps_log.specs.declared.limits.TheConstants.{MOST_CONFLICTS};
ghost use Rattle.ps_max_answer.specs.Optima.{IsFoundAnswer};
ghost use Rattle.ps_max_commands.specs.Due.{DueMaxSat};
ghost use Rattle.ps_max_commands.specs.Ends.{EndsMaxSat};
ghost use Rattle.ps_max_commands.specs.Replies.{IsShortReply, output_of};
ghost use Rattle.ps_max_text.specs.Texts.{IsMaxWithin};
ghost use Rattle.ps_wcnf.specs.Limits.{IsText};

use crate::reply::MaxReply;
use ps_io::NoMemory;
use ps_max_answer::MaxAnswer;
use ps_messages::Message;
use ps_optimum::optimum;
use ps_wcnf::{WcnfError, WcnfText, check_text, read_wcnf};
use std::alloc::Global;

// The answer to clauses, within the limits of its text.
fn answer_to(alloc: Global, text: &WcnfText, conflicts: u64) -> Result<MaxAnswer, NoMemory>
    requires text { IsText text.now }
    requires few { conflicts ≤ MOST_CONFLICTS }
    ensures found { IfOk result (IsFoundAnswer text.now conflicts) }
    ensures within { IfOk result IsMaxWithin }
{
    // Called for its clause: no literal is 0.
    check_text(text);
    let answer = optimum(alloc, text, conflicts)?;
    Ok(answer)
}

/// The reply to all bytes of clauses, where a search may learn so many clauses.
pub fn reply_to_maxsat(alloc: Global, bytes: &[u8], conflicts: u64) -> Result<MaxReply, NoMemory>
    requires few { conflicts ≤ MOST_CONFLICTS }
    ensures due { IfOk result (λ r. DueMaxSat conflicts bytes.now (output_of r)) }
    ensures status { IfOk result (λ r. EndsMaxSat (output_of r).status) }
    ensures short { IfOk result IsShortReply }
{
    match read_wcnf(alloc, bytes) {
        Ok(text) => Ok(MaxReply::Answer(answer_to(alloc, &text, conflicts)?)),
        Err(WcnfError::At { kind, line }) => {
            Ok(MaxReply::Line(Message::unreadable_clauses(alloc, kind, line)?))
        }
        Err(WcnfError::NoMemory) => Err(NoMemory),
    }
}
