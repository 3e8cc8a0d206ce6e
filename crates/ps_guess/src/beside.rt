//! Sides that were found, beside a run of their query.
ghost use Rattle.std.specs.Prelude.{◌≡◌, Some};
ghost use Rattle.ps_guess.specs.Known.{ShowsSide, ShowsSides};
ghost use Rattle.ps_answer.specs.declared.answer.QueryAnswer.TheVariants as answers;
ghost use Rattle.ps_guess.specs.Solutions.{IsAnsweredBeside, IsAnsweredByBoth};
ghost use Rattle.ps_guess.specs.Solutions.{IsAnsweredByDual, IsFoundOrLeft, open_part};

use ps_answer::{Cause, Dual, QueryAnswer, QueryPart, SideAnswer};
use ps_io::List;
use ps_table::Trace;
use std::alloc::Global;

// The side that was found, without events, or what a run left.
#[tactic(auto, using(crate::proofs::Settled::found_beside))]
fn found_or(
    alloc: Global,
    found: Option<SideAnswer>,
    left: SideAnswer,
    events: Trace,
) -> (SideAnswer, Trace)
    ensures answered { IsFoundOrLeft found left events result.0 result.1 }
    ensures shown { ShowsSide found result.0 }
{
    match found {
        Some(side) => (side, List::new(alloc)),
        None => (left, events),
    }
}

/// The answer to a query whose evidence a dual was found to exclude.
#[tactic(auto, using(crate::proofs::Settled::found_impossible))]
pub fn found_impossible(alloc: Global, dual: Dual) -> QueryPart
    ensures answered { IsAnsweredByDual dual result }
    ensures excluded { result.answer ≡ answers.Impossible dual }
{
    QueryPart {
        answer: QueryAnswer::Impossible(dual),
        first: List::new(alloc),
    }
}

/// The answer to a query whose sides were both found.
#[tactic(auto, using(crate::proofs::Settled::found_bounds))]
pub fn both_found(alloc: Global, lower: SideAnswer, upper: SideAnswer) -> QueryPart
    ensures answered { IsAnsweredByBoth lower upper result }
    ensures shown { ShowsSides (Some lower) (Some upper) result.answer }
{
    QueryPart {
        answer: QueryAnswer::Bounds {
            lower,
            lower_trace: List::new(alloc),
            upper,
            upper_trace: List::new(alloc),
        },
        first: List::new(alloc),
    }
}

// What a run whose phase one is open leads to: a side that was found has the other one beside it,
// open for the same cause.
#[tactic(auto, using(crate::proofs::Settled::run_part, crate::proofs::Settled::only_lower, crate::proofs::Settled::only_upper))]
fn beside_open(
    alloc: Global,
    cause: Cause,
    first: Trace,
    lower: Option<SideAnswer>,
    upper: Option<SideAnswer>,
) -> QueryPart
    ensures answered { IsAnsweredBeside (open_part cause first) lower upper result }
    ensures shown { ShowsSides lower upper result.answer }
{
    match (lower, upper) {
        (Some(lower), None) => QueryPart {
            answer: QueryAnswer::Bounds {
                lower,
                lower_trace: List::new(alloc),
                upper: SideAnswer::Open(cause),
                upper_trace: List::new(alloc),
            },
            first,
        },
        (None, Some(upper)) => QueryPart {
            answer: QueryAnswer::Bounds {
                lower: SideAnswer::Open(cause),
                lower_trace: List::new(alloc),
                upper,
                upper_trace: List::new(alloc),
            },
            first,
        },
        (Some(lower), Some(upper)) => both_found(alloc, lower, upper),
        (None, None) => QueryPart {
            answer: QueryAnswer::Open(cause),
            first,
        },
    }
}

/// What a run leads to for a query, with the sides that were found in place of the run's.
#[tactic(auto, using(crate::proofs::Settled::run_part, crate::proofs::Settled::bounds_beside, crate::proofs::Settled::left_lower, crate::proofs::Settled::left_upper))]
pub fn beside_run(
    alloc: Global,
    run: QueryPart,
    lower: Option<SideAnswer>,
    upper: Option<SideAnswer>,
) -> QueryPart
    ensures answered { IsAnsweredBeside run lower upper result }
    ensures shown { ShowsSides lower upper result.answer }
{
    let QueryPart { answer, first } = run;
    match answer {
        QueryAnswer::Impossible(dual) => QueryPart {
            answer: QueryAnswer::Impossible(dual),
            first,
        },
        QueryAnswer::Open(cause) => beside_open(alloc, cause, first, lower, upper),
        QueryAnswer::Bounds {
            lower: lower_left,
            lower_trace,
            upper: upper_left,
            upper_trace,
        } => {
            let (lower, lower_trace) = found_or(alloc, lower, lower_left, lower_trace);
            let (upper, upper_trace) = found_or(alloc, upper, upper_left, upper_trace);
            QueryPart {
                answer: QueryAnswer::Bounds {
                    lower,
                    lower_trace,
                    upper,
                    upper_trace,
                },
                first,
            }
        }
    }
}
