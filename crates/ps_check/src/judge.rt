//! A report whose bytes come piece by piece.
ghost use Rattle.std.specs.Prelude.{◌≡◌, ◌++◌, [], ℕ, List, IfOk, IfSome, IfNone};
ghost use Rattle.ps_log.specs.FirstLines.{IsOneLine};
ghost use Rattle.ps_check.specs.DueLines.{HasFeed};
ghost use Rattle.ps_check.specs.Ends.{AnswersReport};
ghost use Rattle.ps_check.specs.Judging.{HasTaken, HasTakenOn};

use crate::end::StreamEnd;
use crate::stream::StreamCheck;
use ps_io::NoMemory;
use ps_log::split_once;
use ps_problem::Problem;
use ps_valid::Accepted;
use std::alloc::Global;

/// Judges a report whose bytes come piece by piece, and keeps none of them but those of a line.
#[derive(Drop)]
pub(crate) struct Judge {
    check: StreamCheck,
    // The bytes behind the last line feed.
    partial: Vec<u8>,
}

// The first line with its line feed, and the bytes behind it.
fn next_line(bytes: &[u8]) -> Option<(&[u8], &[u8])>
    ensures cut { IfSome result (λ r. bytes.now ≡ r.0.now ++ r.1.now) }
    ensures feed { IfSome result (λ r. HasFeed r.0.now) }
    ensures rest { IfNone result (IsOneLine bytes.now) }
{
    let (line, rest) = split_once(bytes, b'\n')?;
    Some((&bytes[..line.len() + 1], rest))
}

impl Judge {
    /// Before the first byte of a report on a problem.
    pub(crate) fn new(alloc: Global, problem: Problem) -> Result<Judge, NoMemory>
        ensures none { IfOk result (λ j. HasTaken j []) }
        ensures whole { IfOk result (λ j. IsOneLine j.partial.items) }
        ensures problem { IfOk result (λ j. j.check.problem ≡ problem) }
    {
        Ok(Judge {
            check: StreamCheck::new(alloc, problem)?,
            partial: Vec::new(alloc),
        })
    }

    // Takes bytes without a line feed.
    fn keep(&mut self, bytes: &[u8]) -> Result<(), NoMemory>
        requires whole { IsOneLine self.old.partial.items }
        requires bytes { IsOneLine bytes.now }
        ensures taken { IfOk result (λ _. HasTakenOn self.old bytes.now self.new) }
        ensures whole { IfOk result (λ _. IsOneLine self.new.partial.items) }
    {
        self.partial.extend_from_slice(bytes)?;
        Ok(())
    }

    // Takes the end of a line with its line feed. The line is kept once, and only where it came in
    // more than one piece.
    fn end_line(&mut self, end: &[u8]) -> Result<(), NoMemory>
        requires whole { IsOneLine self.old.partial.items }
        requires feed { HasFeed end.now }
        ensures taken { IfOk result (λ _. HasTakenOn self.old end.now self.new) }
        ensures whole { IfOk result (λ _. IsOneLine self.new.partial.items) }
    {
        if self.partial.is_empty() {
            return self.check.line_with_feed(end);
        }
        self.partial.extend_from_slice(end)?;
        self.check.line_with_feed(&self.partial)?;
        self.partial.clear();
        Ok(())
    }

    /// Takes the bytes of a piece.
    pub(crate) fn take(&mut self, piece: &[u8]) -> Result<(), NoMemory>
        requires whole { IsOneLine self.old.partial.items }
        ensures taken { IfOk result (λ _. HasTakenOn self.old piece.now self.new) }
        ensures whole { IfOk result (λ _. IsOneLine self.new.partial.items) }
    {
        let mut left = piece;
        while let Some((line, rest)) = next_line(left) {
            self.end_line(line)?;
            left = rest;
        }
        self.keep(left)
    }

    /// At the end of the bytes: how much the report claims, or why it isn't accepted.
    pub(crate) fn finish(self) -> Result<Accepted, StreamEnd>
        requires whole { IsOneLine self.partial.items }
        ensures { (bytes : List ℕ) → HasTaken self bytes
            → AnswersReport self.check.problem bytes result }
    {
        let Judge { check, partial } = self;
        check.finish(&partial)
    }
}
