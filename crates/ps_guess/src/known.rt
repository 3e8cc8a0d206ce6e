//! What is known of a query.
ghost use Rattle.std.specs.Prelude.{◌≡◌, ◌⊎◌, None, Some, IfSome, IsSome};
ghost use Rattle.ps_query.specs.Settled.{IsClosed};
ghost use Rattle.ps_guess.specs.Known.{HasAnswer, IsClosedOrFound, IsKnownBeside};
ghost use Rattle.ps_guess.specs.Known.{IsKnownBySides, KeepsSides, TakesBounds};

use crate::beside::{both_found, found_impossible};
use ps_answer::{QueryAnswer, QueryPart, SideAnswer};
use std::alloc::Global;

/// What is known of a query.
#[derive(Drop)]
pub enum Known {
    /// The answer to it.
    Answered(QueryPart),
    /// The sides that were found before time was over.
    Sides {
        lower: Option<SideAnswer>,
        upper: Option<SideAnswer>,
    },
}

/// What is known where these sides were found.
pub fn known_by(alloc: Global, lower: Option<SideAnswer>, upper: Option<SideAnswer>) -> Known
    ensures known { IsKnownBySides lower upper result }
    ensures sides { lower ≡ None ⊎ upper ≡ None → result ≡ Known.Sides lower upper }
    ensures both { IsSome lower → IsSome upper → HasAnswer result }
    ensures kept { KeepsSides lower upper result }
{
    let Some(least) = lower else {
        return Known::Sides { lower: None, upper };
    };
    let Some(most) = upper else {
        return Known::Sides {
            lower: Some(least),
            upper: None,
        };
    };
    Known::Answered(both_found(alloc, least, most))
}

// The side that was found, or that of a run where it is a bound.
#[tactic(auto, using(crate::proofs::KnownLaws::closed_side))]
fn closed_or(found: Option<SideAnswer>, left: SideAnswer) -> Option<SideAnswer>
    ensures known { IsClosedOrFound found left result }
    ensures kept { IfSome found (λ side. result ≡ Some side) }
    ensures taken { found ≡ None → IsClosed left → result ≡ Some left }
{
    match found {
        Some(side) => Some(side),
        None => match left {
            SideAnswer::Bound { value, model, dual } => {
                Some(SideAnswer::Bound { value, model, dual })
            }
            SideAnswer::Open(_) => None,
        },
    }
}

/// What is known behind a run, beside the sides that were found before: of the run what has its
/// certificate, without its events.
#[tactic(auto, using(crate::proofs::KnownLaws::left_dual, crate::proofs::KnownLaws::keeps_same, crate::proofs::KnownLaws::takes_none))]
pub fn known_behind(
    alloc: Global,
    run: QueryPart,
    lower: Option<SideAnswer>,
    upper: Option<SideAnswer>,
) -> Known
    ensures known { IsKnownBeside run lower upper result }
    ensures kept { KeepsSides lower upper result }
    ensures taken { TakesBounds run.answer result }
{
    let QueryPart { answer, first: _ } = run;
    match answer {
        QueryAnswer::Impossible(dual) => Known::Answered(found_impossible(alloc, dual)),
        QueryAnswer::Open(_) => Known::Sides { lower, upper },
        QueryAnswer::Bounds {
            lower: lower_left,
            upper: upper_left,
            ..
        } => known_by(
            alloc,
            closed_or(lower, lower_left),
            closed_or(upper, upper_left),
        ),
    }
}
