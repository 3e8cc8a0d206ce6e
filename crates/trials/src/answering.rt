//! The report of a problem.
ghost use Rattle.std.specs.Prelude.{◌≤◌, IfOk, IfSome, length};
ghost use Rattle.ps_generation.specs.Phases.{AreLimits};
ghost use Rattle.ps_query.specs.Solutions.{AreShortLines};
ghost use Rattle.trials.specs.declared.answering.TheConstants.{MOST_PROBLEM};

use ps_answer::{Answer, MOST_PIVOTS, QueryAnswer, SideAnswer, Verdict};
use ps_engine::Engine;
use ps_guess::Limits;
use ps_io::{Lines, NoMemory, Sink, Source, read_all};
use ps_read::read_whole;
use ps_report::write_report;
use std::alloc::Global;

/// The most bytes of a problem.
const MOST_PROBLEM: u64 = 1 << 20;

/// How many clauses a search learns at most.
const CONFLICTS: u64 = 20_000;

/// What the engine did.
#[derive(Clone, Copy, Debug)]
pub struct Work {
    /// The pivots that it made.
    pub pivots: u64,
    /// The worlds that it met.
    pub worlds: usize,
}

/// An answer, and the engine's work.
#[derive(Drop)]
struct Answered {
    answer: Answer,
    work: Work,
}

/// How the program ends.
#[derive(Clone, Copy, Debug)]
pub enum Ended {
    /// Nothing is open.
    Done(Work),
    /// The sentences are inconsistent.
    Inconsistent(Work),
    /// There is no problem.
    Unreadable,
    /// Something is open.
    Unfinished(Work),
    /// The input, the output or the memory failed.
    Failed,
}

// Whether a query's answer leaves nothing open.
fn is_settled(answer: &QueryAnswer) -> bool {
    match answer {
        QueryAnswer::Impossible(_) => true,
        QueryAnswer::Open(_) => false,
        QueryAnswer::Bounds { lower, upper, .. } => {
            matches!(lower, SideAnswer::Bound { .. }) && matches!(upper, SideAnswer::Bound { .. })
        }
    }
}

// How an answer ends the program.
fn ended_by(answer: &Answer, work: Work) -> Ended {
    match answer.verdict {
        Verdict::Inconsistent(_) => Ended::Inconsistent(work),
        Verdict::Open(_) => Ended::Unfinished(work),
        Verdict::Consistent(_) => {
            if answer
                .parts
                .as_slice()
                .iter()
                .all(|part| is_settled(&part.answer))
            {
                Ended::Done(work)
            } else {
                Ended::Unfinished(work)
            }
        }
    }
}

// The limits of the runs that make so many pivots.
pub(crate) fn limits_of(pivots: u64) -> Limits
    ensures { AreLimits result }
{
    Limits {
        pivots: if pivots < MOST_PIVOTS {
            pivots
        } else {
            MOST_PIVOTS
        },
        conflicts: CONFLICTS,
    }
}

// The answer to the text of a problem, where it is one.
fn answer_of(alloc: Global, pivots: u64, bytes: &[u8]) -> Result<Option<Answered>, NoMemory>
    requires { length bytes.now ≤ MOST_PROBLEM }
    ensures { IfOk result (λ o. IfSome o (λ answered. AreShortLines answered.answer)) }
{
    let Some(problem) = read_whole(alloc, bytes).ok() else {
        return Ok(None);
    };
    let limits = limits_of(pivots);
    let mut engine = Engine::new(alloc, &problem)?;
    let answer = ps_guess::answer(alloc, &problem, limits, &mut engine)?;
    let work = Work {
        pivots: engine.pivots(),
        worlds: engine.worlds(),
    };
    Ok(Some(Answered { answer, work }))
}

/// Reads a problem, and writes its report.
pub fn answer_to<I: Source, O: Sink>(
    alloc: Global,
    pivots: u64,
    source: &mut I,
    sink: &mut O,
) -> Ended {
    let Some(bytes) = read_all(alloc, source, MOST_PROBLEM).ok() else {
        return Ended::Failed;
    };
    let Answered { answer, work } = match answer_of(alloc, pivots, &bytes) {
        Ok(Some(answered)) => answered,
        Ok(None) => return Ended::Unreadable,
        Err(_) => return Ended::Failed,
    };
    let mut lines = Lines::new(alloc, sink).unwrap();
    match write_report(&answer, &mut lines) {
        Ok(()) => ended_by(&answer, work),
        Err(_) => Ended::Failed,
    }
}
