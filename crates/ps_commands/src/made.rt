//! A made problem with the summary of an answer to it.
ghost use Rattle.std.specs.Prelude.{◌≡◌, IfOk};
ghost use Rattle.ps_generation.specs.Phases.{AreLimits};
ghost use Rattle.ps_query.specs.Solutions.{IsSolution};
ghost use Rattle.ps_valid.specs.Judged.{IsAccepted};
ghost use Rattle.ps_commands.specs.Due.{DueMade};
ghost use Rattle.ps_commands.specs.Replies.{AreLimitsOfMake, IsMadeOf, IsShortReply, output_of};
ghost use Rattle.ps_commands.specs.Replies.{reply_status, status_by_open};
ghost use Rattle.ps_commands.specs.Statuses.{EndsMake};

use crate::reply::Reply;
use crate::summary::summary_text;
use ps_answer::Answer;
use ps_io::NoMemory;
use ps_make::{made_texts_are_read, make_text};
use ps_messages::Status;
use ps_problem::Problem;
use ps_query::{Limits, solve};
use ps_read::{ReadError, read_whole};
use ps_valid::{Accepted, CheckError, check};
use std::alloc::Global;

/// A made problem with the summary of an answer to it.
#[derive(Drop)]
pub struct MadeProblem {
    /// The text of the problem, and behind it the summary.
    pub text: Vec<u8>,
    /// The answer, where some part of it is open.
    pub unfinished: Option<Answer>,
}

impl MadeProblem {
    /// The status after it.
    pub fn status(&self) -> Status
        ensures { result ≡ status_by_open self.now.unfinished }
    {
        match self.unfinished {
            Some(_) => Status::Unfinished,
            None => Status::Done,
        }
    }
}

// The counts of the check, which accepts the answer, since it is valid.
fn accept(
    alloc: Global,
    problem: &Problem,
    answer: &Answer,
    limits: Limits,
) -> Result<Accepted, NoMemory>
    requires solution { IsSolution limits problem.now answer.now }
    ensures { IfOk result (IsAccepted problem.now answer.now) }
{
    // Called for its clauses: the problem is within the limits.
    let _sound = problem.rows();
    match check(alloc, problem, answer) {
        Ok(accepted) => Ok(accepted),
        Err(CheckError::Refused(_)) => unreachable!(),
        Err(CheckError::NoMemory) => Err(NoMemory),
    }
}

// The text of a problem with the summary of an answer to it, which is checked before.
fn summed_up(
    alloc: Global,
    text: Vec<u8>,
    problem: &Problem,
    limits: Limits,
) -> Result<MadeProblem, NoMemory>
    requires limits { AreLimits limits }
    ensures { IfOk result (IsMadeOf text.items limits problem.now) }
{
    let answer = solve(alloc, problem, limits)?;
    let accepted = accept(alloc, problem, &answer, limits)?;
    let summary = summary_text(alloc, &answer, accepted)?;
    let mut text = text;
    text.extend_from_slice(summary.as_bytes())?;
    if accepted.unfinished == 0 {
        Ok(MadeProblem {
            text,
            unfinished: None,
        })
    } else {
        Ok(MadeProblem {
            text,
            unfinished: Some(answer),
        })
    }
}

/// The reply with the chain of so many links, whose problem is answered within limits.
pub fn reply_to_make(alloc: Global, links: u32, limits: Limits) -> Result<Reply, NoMemory>
    requires limits { AreLimitsOfMake links limits }
    ensures due { IfOk result (λ r. DueMade links limits (output_of r)) }
    ensures status { IfOk result (λ r. EndsMake (reply_status r)) }
    ensures short { IfOk result IsShortReply }
{
    // Called for its clauses: the text spells one problem.
    made_texts_are_read();
    let text = make_text(alloc, links)?;
    match read_whole(alloc, &text) {
        Ok(problem) => Ok(Reply::Made(summed_up(alloc, text, &problem, limits)?)),
        Err(ReadError::At { .. }) => unreachable!(),
        Err(ReadError::NoMemory) => Err(NoMemory),
    }
}
