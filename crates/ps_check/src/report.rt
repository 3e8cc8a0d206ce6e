//! What stands behind the problem part of an input.
ghost use Rattle.std.specs.Prelude.{IfOk, OnOk};
ghost use Rattle.ps_check.specs.Reports.{IsSound, IsJudging, HasBegun, HasTakenOn, IsFound};

use crate::checked::Checked;
use crate::end::StreamEnd;
use crate::judge::Judge;
use ps_io::NoMemory;
use ps_problem::Problem;
use ps_read::{Front, ReadError, ReadKind};
use std::alloc::Global;

/// What is known of an input behind its problem part.
#[derive(Drop)]
pub(crate) enum Report {
    // The problem is read, and the bytes behind its part are judged.
    Judging {
        judge: Judge,
    },
    // Why and where no problem is read, whatever follows.
    Refused {
        kind: ReadKind,
        line: u32,
        column: u32,
    },
}

// Behind the text of a problem, and these bytes of a report on it.
fn judging(alloc: Global, problem: Problem, rest: &[u8]) -> Result<Report, NoMemory>
    ensures sound { IfOk result IsSound }
    ensures judged { IfOk result (IsJudging problem rest.now) }
{
    let mut judge = Judge::new(alloc, problem)?;
    judge.take(rest)?;
    Ok(Report::Judging { judge })
}

impl Report {
    /// Behind the problem part, and these bytes behind it.
    pub(crate) fn begin(alloc: Global, front: Front, rest: &[u8]) -> Result<Report, NoMemory>
        ensures sound { IfOk result IsSound }
        ensures begun { IfOk result (HasBegun front rest.now) }
    {
        match front.done(alloc) {
            Ok(problem) => judging(alloc, problem, rest),
            Err(ReadError::At { kind, line, column }) => Ok(Report::Refused { kind, line, column }),
            Err(ReadError::NoMemory) => Err(NoMemory),
        }
    }

    /// Takes the bytes of a piece.
    pub(crate) fn take(&mut self, piece: &[u8]) -> Result<(), NoMemory>
        requires sound { IsSound self.old }
        ensures sound { OnOk result (IsSound self.new) }
        ensures taken { OnOk result (HasTakenOn self.old piece.now self.new) }
    {
        match self {
            Report::Judging { judge } => judge.take(piece),
            Report::Refused { .. } => Ok(()),
        }
    }

    /// At the end of the bytes: what is found of them.
    pub(crate) fn finish(self) -> Result<Checked, NoMemory>
        requires sound { IsSound self }
        ensures found { IfOk result (IsFound self) }
    {
        match self {
            Report::Judging { judge } => match judge.finish() {
                Ok(accepted) => Ok(Checked::Accepted(accepted)),
                Err(StreamEnd::Line { kind, line }) => Ok(Checked::RefusedLine { kind, line }),
                Err(StreamEnd::Refused(refusal)) => Ok(Checked::Refused(refusal)),
                Err(StreamEnd::NoMemory) => Err(NoMemory),
            },
            Report::Refused { kind, line, column } => {
                Ok(Checked::Unreadable { kind, line, column })
            }
        }
    }
}
