//! A report whose lines come one by one.
ghost use Rattle.std.specs.Prelude.{◌≡◌, ◌+◌, ◌↔◌, ◌++◌, ◌∷◌, [], Err};
ghost use Rattle.std.specs.Prelude.{IfOk, OnOk, OnErr, IsErr};
ghost use Rattle.ps_log.specs.FirstLines.{IsOneLine};
ghost use Rattle.ps_check.specs.declared.end.StreamEnd.TheVariants as end;
ghost use Rattle.ps_check.specs.declared.state.State.TheVariants.{Reading};
ghost use Rattle.ps_check.specs.Reading.{of_stream};
ghost use Rattle.ps_check.specs.DueLines.{HasFeed};
ghost use Rattle.ps_check.specs.States.{AnswersTaken, HasTaken, HasTakenOn, HasTakenFed, reading};
ghost use Rattle.ps_check.specs.States.{IsCounted, IsOutOfMemory};

use crate::due::Due;
use crate::end::StreamEnd;
use crate::progress::Progress;
use crate::state::{State, read_on};
use ps_answer::LineKind;
use ps_io::NoMemory;
use ps_problem::Problem;
use ps_valid::{Accepted, Refusal};
use std::alloc::Global;
use std::marker::Model;

/// Judges a report on a problem, line by line. For want of memory it judges no more: each further
/// call answers that memory ran out.
#[derive(Drop)]
pub struct StreamCheck {
    alloc: Global,
    problem: Problem,
    // How many lines were taken.
    taken: u64,
    state: State,
}

impl Model for StreamCheck {
    ghost use Rattle.ps_check.specs.States.{StreamState, IsCounted};

    ghost Value = { StreamState };

    ghost view = { λ s. record { problem = s.problem; taken = s.taken; state = s.state } };

    ghost invariant = { λ s. IsCounted s.taken s.state };
}

// A line with its line feed.
fn with_feed(alloc: Global, line: &[u8]) -> Result<Vec<u8>, NoMemory>
    ensures { IfOk result (λ fed. fed.items ≡ line.now ++ 10 ∷ []) }
{
    let mut fed = Vec::from_slice(alloc, line)?;
    fed.push(b'\n')?;
    Ok(fed)
}

// What is answered of a report, by what is found behind its last line.
fn answer_of(found: Result<Accepted, Refusal>) -> Result<Accepted, StreamEnd>
    ensures { result ≡ of_stream found }
{
    found.map_err(StreamEnd::Refused)
}

impl StreamCheck {
    /// Before the first line of a report on a problem.
    pub fn new(alloc: Global, problem: Problem) -> Result<StreamCheck, NoMemory>
        ensures none { IfOk result (λ s. HasTaken s []) }
        ensures problem { IfOk result (λ s. s.problem ≡ problem) }
    {
        Ok(StreamCheck {
            alloc,
            problem,
            taken: 0,
            state: State::Reading {
                due: Due::at_start(alloc)?,
                progress: Progress::new(),
            },
        })
    }

    // Reads one more line with its line feed, where these parts are due.
    fn read(&mut self, due: Due, progress: Progress, line: &[u8]) -> Result<(), NoMemory>
        requires feed { HasFeed line.now }
        requires counted { IsCounted self.old.taken (Reading due progress) }
        ensures taken { IfOk result
            (λ _. HasTakenFed (reading self.old due progress) line.now self.new) }
        ensures problem { self.new.problem ≡ self.old.problem }
        ensures err { OnErr result (self.new.state ≡ self.old.state) }
    {
        let number = self.taken + 1;
        let state = read_on(self.alloc, due, progress, &self.problem, line, number)?;
        self.state = state;
        self.taken = number;
        Ok(())
    }

    /// As `line`, of a line with its line feed, which isn't copied.
    pub(crate) fn line_with_feed(&mut self, line: &[u8]) -> Result<(), NoMemory>
        requires feed { HasFeed line.now }
        ensures taken { IfOk result (λ _. HasTakenFed self.old line.now self.new) }
        ensures problem { self.new.problem ≡ self.old.problem }
        ensures err { OnErr result (IsOutOfMemory self.new) }
        ensures stays { IsOutOfMemory self.old → IsErr result }
    {
        match std::mem::replace(&mut self.state, State::OutOfMemory) {
            State::Reading { due, progress } => self.read(due, progress, line),
            State::AtFault { kind, line } => {
                self.state = State::AtFault { kind, line };
                Ok(())
            }
            State::OutOfMemory => Err(NoMemory),
        }
    }

    /// Takes one more line, without its line feed. After want of memory no more is taken.
    pub fn line(&mut self, line: &[u8]) -> Result<(), NoMemory>
        requires line { IsOneLine line.now }
        // The line is taken behind those before it, on the same problem.
        ensures taken { IfOk result (λ _. HasTakenOn self.old line.now self.new) }
        ensures problem { self.new.problem ≡ self.old.problem }
        // Once memory ran out, it is answered each time.
        ensures err { OnErr result (IsOutOfMemory self.new) }
        ensures stays { IsOutOfMemory self.old → IsErr result }
    {
        match with_feed(self.alloc, line) {
            Ok(fed) => self.line_with_feed(&fed),
            Err(NoMemory) => {
                self.state = State::OutOfMemory;
                Err(NoMemory)
            }
        }
    }

    /// At the end of the lines, behind which bytes without a line feed are left: how much the report
    /// claims, or why it isn't accepted.
    pub fn finish(self, rest: &[u8]) -> Result<Accepted, StreamEnd>
        requires rest { IsOneLine rest.now }
        // The first line at fault is told, or what is answered of the answer whose report it is.
        ensures told { AnswersTaken self rest.now result }
        // That memory ran out is answered where it did, and nowhere else.
        ensures memory { IsOutOfMemory self ↔ (result ≡ Err end.NoMemory) }
    {
        self.end(rest)
    }

    // As `finish`.
    fn end(&self, rest: &[u8]) -> Result<Accepted, StreamEnd>
        requires rest { IsOneLine rest.now }
        ensures told { AnswersTaken self.now rest.now result }
        ensures memory { IsOutOfMemory self.now ↔ (result ≡ Err end.NoMemory) }
    {
        // Called for its clause: the problem is within the limits.
        let _queries = self.problem.queries();
        let line = self.taken + 1;
        match &self.state {
            State::Reading { due, progress } => {
                if due.next().is_some() {
                    let kind = LineKind::Truncated;
                    return Err(StreamEnd::Line { kind, line });
                }
                if !rest.is_empty() {
                    let kind = LineKind::MoreAfterEnd;
                    return Err(StreamEnd::Line { kind, line });
                }
                answer_of(progress.finish())
            }
            State::AtFault { kind, line } => Err(StreamEnd::Line {
                kind: *kind,
                line: *line,
            }),
            State::OutOfMemory => Err(StreamEnd::NoMemory),
        }
    }
}
