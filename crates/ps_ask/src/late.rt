//! What wasn't finished within a limit of time.
ghost use Rattle.std.specs.Prelude.{◌≡◌, []};
ghost use Rattle.ps_answer.specs.declared.answer.QueryAnswer.TheVariants as query;
ghost use Rattle.ps_ask.specs.Late.{is_late, is_late_answer, is_late_cause, is_late_in, is_late_side};
ghost use Rattle.ps_ask.specs.Late.{is_late_verdict};
ghost use Rattle.ps_guess.specs.Known.{ShowsSides};
ghost use Rattle.ps_ask.specs.Fronts.{IsJudgedBeside};

use ps_answer::{Answer, Cause, QueryAnswer, QueryPart, SideAnswer, Verdict};
use ps_io::List;
use ps_spoken::{OUT_OF_TIME, out_of_time};
use std::alloc::Global;

// Whether the cause is that time was over.
fn is_late_cause(cause: &Cause) -> bool
    ensures { result ≡ is_late_cause cause.now }
{
    match cause {
        Cause::Pivots { limit } => *limit == OUT_OF_TIME,
        Cause::Conflicts { .. } | Cause::Wide { .. } => false,
    }
}

// Whether a side is open since time was over.
fn is_late_side(side: &SideAnswer) -> bool
    ensures { result ≡ is_late_side side.now }
{
    match side {
        SideAnswer::Bound { .. } => false,
        SideAnswer::Open(cause) => is_late_cause(cause),
    }
}

// Whether a query, or a side of it, is open since time was over.
fn is_late_answer(answer: &QueryAnswer) -> bool
    ensures { result ≡ is_late_answer answer.now }
{
    match answer {
        QueryAnswer::Bounds { lower, upper, .. } => is_late_side(lower) || is_late_side(upper),
        QueryAnswer::Impossible(_) => false,
        QueryAnswer::Open(cause) => is_late_cause(cause),
    }
}

// Whether some query is open since time was over.
fn is_late_in(parts: &[QueryPart]) -> bool
    ensures { result ≡ is_late_in parts.now }
{
    for part in parts {
        if is_late_answer(&part.answer) {
            return true;
        }
    }
    false
}

// Whether the verdict is open since time was over.
fn is_late_verdict(verdict: &Verdict) -> bool
    ensures { result ≡ is_late_verdict verdict.now }
{
    match verdict {
        Verdict::Consistent(_) | Verdict::Inconsistent(_) => false,
        Verdict::Open(cause) => is_late_cause(cause),
    }
}

/// Whether time is limited, and was over before the answer was whole.
pub fn is_late(timed: bool, answer: &Answer) -> bool
    ensures { result ≡ is_late timed answer.now }
{
    timed && (is_late_verdict(&answer.verdict) || is_late_in(answer.parts.as_slice()))
}

/// What is shown of a query where time was over before it was answered: the sides that were found.
#[tactic(auto, using(crate::proofs::JudgedLaws::late_both, crate::proofs::JudgedLaws::late_below, crate::proofs::JudgedLaws::late_above, crate::proofs::JudgedLaws::late_whole))]
pub fn late_part(alloc: Global, lower: Option<SideAnswer>, upper: Option<SideAnswer>) -> QueryPart
    ensures judged { IsJudgedBeside lower upper result }
    ensures shown { ShowsSides lower upper result.answer }
{
    let answer = match (lower, upper) {
        (Some(least), Some(most)) => sides(alloc, least, most),
        (Some(least), None) => sides(alloc, least, SideAnswer::Open(out_of_time())),
        (None, Some(most)) => sides(alloc, SideAnswer::Open(out_of_time()), most),
        (None, None) => QueryAnswer::Open(out_of_time()),
    };
    QueryPart {
        answer,
        first: List::new(alloc),
    }
}

// Two sides without events.
fn sides(alloc: Global, lower: SideAnswer, upper: SideAnswer) -> QueryAnswer
    ensures { result ≡ query.Bounds lower [] upper [] }
{
    QueryAnswer::Bounds {
        lower,
        lower_trace: List::new(alloc),
        upper,
        upper_trace: List::new(alloc),
    }
}
