//! The reply to a problem that is to be explained.
ghost use Rattle.std.specs.Prelude.{◌≡◌, ◌≤◌, length, IfOk};
ghost use Rattle.ps_generation.specs.Phases.{AreLimits};
ghost use Rattle.ps_explain.specs.Explanations.{IsPrintedExplanation, IsRightExplanation};
ghost use Rattle.ps_explain.specs.Texts.{HasShortLines};
ghost use Rattle.ps_commands.specs.declared.command.TheConstants.{MOST_PROBLEM};
ghost use Rattle.ps_commands.specs.Due as due;
ghost use Rattle.ps_commands.specs.Due.{DueExplained};
ghost use Rattle.ps_commands.specs.Replies.{IsShortReply, output_of, reply_status};
ghost use Rattle.ps_commands.specs.Statuses.{EndsSolve};

use crate::reply::Reply;
use crate::solved::limits_for;
use ps_engine::Engine;
use ps_explain::{Explained, explain};
use ps_io::NoMemory;
use ps_messages::{Message, Status};
use ps_problem::Problem;
use ps_query::Limits;
use ps_read::{ReadError, read_whole};
use std::alloc::Global;

/// The status after an explanation.
pub fn status_explained(explained: &Explained) -> Status
    ensures { result ≡ due.status_explained explained.now }
{
    match explained {
        Explained::Consistent(_) => Status::Done,
        Explained::Core { .. } => Status::Inconsistent,
        Explained::Open { .. } => Status::Unfinished,
    }
}

// Why the sentences of a problem can't be met together, by an engine's guesses.
fn explanation_of(alloc: Global, problem: &Problem, limits: Limits) -> Result<Explained, NoMemory>
    requires limits { AreLimits limits }
    ensures right { IfOk result (IsRightExplanation limits problem.now) }
    ensures printed { IfOk result IsPrintedExplanation }
    ensures short { IfOk result HasShortLines }
{
    let mut engine = Engine::new(alloc, problem)?;
    explain(alloc, problem, limits, &mut engine)
}

/// The reply to all bytes of a problem that is to be explained. Where `enough` is true, each run
/// makes as many pivots as are enough for the problem, in place of those of the limits.
pub fn reply_to_explain(
    alloc: Global,
    bytes: &[u8],
    limits: Limits,
    enough: bool,
) -> Result<Reply, NoMemory>
    requires limits { AreLimits limits }
    requires few { length bytes.now ≤ MOST_PROBLEM }
    ensures due { IfOk result (λ r. DueExplained limits enough bytes.now (output_of r)) }
    ensures status { IfOk result (λ r. EndsSolve (reply_status r)) }
    ensures short { IfOk result IsShortReply }
{
    match read_whole(alloc, bytes) {
        Ok(problem) => {
            let limits = limits_for(&problem, limits, enough);
            Ok(Reply::Explanation(explanation_of(alloc, &problem, limits)?))
        }
        Err(ReadError::At { kind, line, column }) => {
            Ok(Reply::Line(Message::unreadable(alloc, kind, line, column)?))
        }
        Err(ReadError::NoMemory) => Err(NoMemory),
    }
}
