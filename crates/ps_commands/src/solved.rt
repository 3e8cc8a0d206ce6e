//! The reply to a problem that is to be answered.
ghost use Rattle.std.specs.Prelude.{◌≡◌, ◌≤◌, length, IfOk, SomeIff};
ghost use Rattle.ps_answer.specs.declared.limits.TheConstants.{MOST_PIVOTS};
ghost use Rattle.ps_generation.specs.Phases.{AreLimits};
ghost use Rattle.ps_commands.specs.declared.command.TheConstants.{MOST_PROBLEM};
ghost use Rattle.ps_commands.specs.Due.{DueAnswered};
ghost use Rattle.ps_commands.specs.Replies.{IsShortReply, output_of, reply_status};
ghost use Rattle.ps_commands.specs.RunLimits as run;
ghost use Rattle.ps_commands.specs.Statuses.{EndsSolve};

use crate::reply::Reply;
use ps_answer::MOST_PIVOTS;
use ps_io::NoMemory;
use ps_messages::Message;
use ps_problem::Problem;
use ps_query::{Limits, solve};
use ps_read::{ReadError, read_whole};
use ps_simplex::enough_pivots;
use std::alloc::Global;

// How many pivots are enough for each run on a problem, where that is at most `MOST_PIVOTS`.
fn enough_for(problem: &Problem) -> Option<u64>
    ensures { SomeIff result (run.enough_for problem.now ≤ MOST_PIVOTS)
        (run.enough_for problem.now) }
{
    let worlds = 2u64.checked_pow(u32::from(problem.atoms()))?;
    enough_pivots(problem.bounds() + 1, worlds)
}

/// The limits of the runs on a problem: those of the words, and where pivots are to be enough, as
/// many as are, or `MOST_PIVOTS` where that is less.
pub fn limits_for(problem: &Problem, limits: Limits, enough: bool) -> Limits
    requires limits { AreLimits limits }
    ensures limits { result ≡ run.limits_for limits enough problem.now }
    ensures within { AreLimits result }
{
    if enough {
        Limits {
            pivots: enough_for(problem).unwrap_or(MOST_PIVOTS),
            conflicts: limits.conflicts,
        }
    } else {
        limits
    }
}

/// The reply to all bytes of a problem. Where `enough` is true, each run makes as many pivots as
/// are enough for the problem, in place of those of the limits.
pub fn reply_to_solve(
    alloc: Global,
    bytes: &[u8],
    limits: Limits,
    enough: bool,
) -> Result<Reply, NoMemory>
    requires limits { AreLimits limits }
    requires few { length bytes.now ≤ MOST_PROBLEM }
    ensures due { IfOk result (λ r. DueAnswered limits enough bytes.now (output_of r)) }
    ensures status { IfOk result (λ r. EndsSolve (reply_status r)) }
    ensures short { IfOk result IsShortReply }
{
    match read_whole(alloc, bytes) {
        Ok(problem) => {
            let limits = limits_for(&problem, limits, enough);
            Ok(Reply::Report(solve(alloc, &problem, limits)?))
        }
        Err(ReadError::At { kind, line, column }) => {
            Ok(Reply::Line(Message::unreadable(alloc, kind, line, column)?))
        }
        Err(ReadError::NoMemory) => Err(NoMemory),
    }
}
