//! What is told of a query beneath the answer to it.
ghost use Rattle.std.specs.Prelude.{◌≡◌, ◌&&◌, IfOk, IfSome, is_some};
ghost use Rattle.ps_problem.specs.Problems.{HasNodes};
ghost use Rattle.ps_support.specs.Supports.{IsSupport, kind_of};
ghost use Rattle.ps_support.specs.declared.bound_side.BoundSide.TheVariants.{Lower, Upper};
ghost use Rattle.ps_ask.specs.Details.{AreAsAsked, IsAsAsked, IsDualFor, IsExample, IsTrueOf};
ghost use Rattle.ps_ask.specs.Details.{IsTrueOfSide, is_bound};
ghost use Rattle.ps_ask.specs.Known.{IsBoundAt, IsModelFor, IsProvedFor, IsProvedSide};
ghost use Rattle.ps_ask.specs.Known.{IsRightFor};

use crate::lean::lean_dual;
use crate::reached::reached_of;
use crate::settings::Settings;
use ps_answer::{Dual, Model, QueryAnswer, SideAnswer};
use ps_frac::Fraction;
use ps_guess::{Trials, Watch};
use ps_io::NoMemory;
use ps_problem::Query;
use ps_spoken::{Details, SideDetails};
use ps_support::{BoundSide, Example, Support, example_of, support_of};
use std::alloc::Global;

// The sentences on which a bound rests, by a dual that shows it.
fn support_with(
    alloc: Global,
    trials: &Trials<'_>,
    query: Query,
    side: BoundSide,
    value: &Fraction,
    dual: &Dual,
    lines: &[u32],
) -> Result<Support, NoMemory>
    requires query { HasNodes trials.now.nodes query.formula query.given query.both }
    requires dual { IsDualFor trials.now side query value.now dual.now }
    ensures true_of { IfOk result (IsSupport trials.now query side) }
    ensures value { IfOk result (λ s. s.value ≡ value.now) }
{
    let problem = trials.problem();
    support_of(alloc, problem, side, query, value, dual, lines)
}

// The same by a dual without certainties that the bound doesn't need, where one is found.
fn support_lean(
    alloc: Global,
    trials: &Trials<'_>,
    query: Query,
    side: BoundSide,
    value: &Fraction,
    dual: &Dual,
    lean: &Option<Dual>,
    lines: &[u32],
) -> Result<Support, NoMemory>
    requires query { HasNodes trials.now.nodes query.formula query.given query.both }
    requires dual { IsDualFor trials.now side query value.now dual.now }
    requires lean { IfSome lean.now (IsDualFor trials.now side query value.now) }
    ensures true_of { IfOk result (IsSupport trials.now query side) }
    ensures value { IfOk result (λ s. s.value ≡ value.now) }
{
    match lean {
        Some(less) => support_with(alloc, trials, query, side, value, less, lines),
        None => support_with(alloc, trials, query, side, value, dual, lines),
    }
}

// The sentences on which the bound of a side rests, where it is one.
#[tactic(auto, using(crate::proofs::DetailLaws::shown_by))]
fn support_by<W: Watch>(
    alloc: Global,
    trials: &Trials<'_>,
    query: Query,
    side: BoundSide,
    answer: &SideAnswer,
    lines: &[u32],
    watch: &mut W,
) -> Result<Option<Support>, NoMemory>
    requires query { HasNodes trials.now.nodes query.formula query.given query.both }
    requires proved { IsProvedSide trials.now (kind_of side) query answer.now }
    ensures true_of { IfOk result (λ o. IfSome o (IsSupport trials.now query side)) }
    ensures asked { IfOk result (λ o. is_some o ≡ is_bound answer.now) }
    ensures value { IfOk result (λ o. IfSome o (λ s. IsBoundAt answer.now s.value)) }
{
    let SideAnswer::Bound { value, model, dual } = answer else {
        return Ok(None);
    };
    let lean = lean_dual(alloc, trials, side, query, value, model, dual, watch)?;
    Ok(Some(support_lean(alloc, trials, query, side, value, dual, &lean, lines)?))
}

// The sentences on which the bound of a side rests, where they are asked for and it is one.
fn support_in<W: Watch>(
    alloc: Global,
    settings: Settings,
    trials: &Trials<'_>,
    query: Query,
    side: BoundSide,
    answer: &SideAnswer,
    lines: &[u32],
    watch: &mut W,
) -> Result<Option<Support>, NoMemory>
    requires query { HasNodes trials.now.nodes query.formula query.given query.both }
    requires proved { IsProvedSide trials.now (kind_of side) query answer.now }
    ensures true_of { IfOk result (λ o. IfSome o (IsSupport trials.now query side)) }
    ensures asked { IfOk result
        (λ o. is_some o ≡ settings.tells_support && is_bound answer.now) }
    ensures value { IfOk result (λ o. IfSome o (λ s. IsBoundAt answer.now s.value)) }
{
    if !settings.tells_support {
        return Ok(None);
    }
    support_by(alloc, trials, query, side, answer, lines, watch)
}

// A distribution that reaches the bound of a side, where one is asked for and it is one.
#[tactic(auto, using(crate::proofs::DetailLaws::example_total, crate::proofs::DetailLaws::example_weights, crate::proofs::DetailLaws::example_is))]
fn example_in(
    alloc: Global,
    settings: Settings,
    trials: &Trials<'_>,
    query: Query,
    side: BoundSide,
    answer: &SideAnswer,
) -> Result<Option<Example>, NoMemory>
    requires proved { IsProvedSide trials.now (kind_of side) query answer.now }
    ensures true_of { IfOk result (λ o. IfSome o (IsExample trials.now query)) }
    ensures asked { IfOk result
        (λ o. is_some o ≡ settings.tells_examples && is_bound answer.now) }
    ensures value { IfOk result (λ o. IfSome o (λ e. IsBoundAt answer.now e.value)) }
{
    if !settings.tells_examples {
        return Ok(None);
    }
    match answer {
        SideAnswer::Bound { value, model, .. } => Ok(Some(example_of(alloc, value, model)?)),
        SideAnswer::Open(_) => Ok(None),
    }
}

// What is told of a side.
fn side_details<W: Watch>(
    alloc: Global,
    settings: Settings,
    trials: &Trials<'_>,
    query: Query,
    side: BoundSide,
    answer: &SideAnswer,
    lines: &[u32],
    watch: &mut W,
) -> Result<SideDetails, NoMemory>
    requires query { HasNodes trials.now.nodes query.formula query.given query.both }
    requires proved { IsProvedSide trials.now (kind_of side) query answer.now }
    ensures true_of { IfOk result (IsTrueOfSide trials.now query side) }
    ensures asked { IfOk result (IsAsAsked settings answer.now) }
{
    let support = support_in(alloc, settings, trials, query, side, answer, lines, watch)?;
    let example = example_in(alloc, settings, trials, query, side, answer)?;
    Ok(SideDetails { support, example })
}

// What is told of both sides of an answer to a query, and nothing where it has none.
#[tactic(auto, using(crate::proofs::DetailLaws::proved_lower, crate::proofs::DetailLaws::proved_upper))]
fn sides_told<W: Watch>(
    alloc: Global,
    settings: Settings,
    trials: &Trials<'_>,
    query: Query,
    answer: &QueryAnswer,
    lines: &[u32],
    watch: &mut W,
) -> Result<(SideDetails, SideDetails), NoMemory>
    requires query { HasNodes trials.now.nodes query.formula query.given query.both }
    requires proved { IsProvedFor trials.now query answer.now }
    ensures lower { IfOk result (λ r. IsTrueOfSide trials.now query Lower r.0) }
    ensures upper { IfOk result (λ r. IsTrueOfSide trials.now query Upper r.1) }
    ensures asked { IfOk result (λ r. AreAsAsked settings answer.now r.0 r.1) }
{
    match answer {
        QueryAnswer::Bounds { lower, upper, .. } => {
            let low = BoundSide::Lower;
            let high = BoundSide::Upper;
            let below = side_details(alloc, settings, trials, query, low, lower, lines, watch)?;
            let above = side_details(alloc, settings, trials, query, high, upper, lines, watch)?;
            Ok((below, above))
        }
        QueryAnswer::Impossible(_) | QueryAnswer::Open(_) => {
            Ok((SideDetails::none(), SideDetails::none()))
        }
    }
}

/// What is told of a query beneath the answer to it: what is reached of it where it is open, and of
/// each bound, where that is asked for, the sentences on which it rests and a distribution that
/// reaches it.
pub(crate) fn details_of<W: Watch>(
    alloc: Global,
    settings: Settings,
    trials: &Trials<'_>,
    query: Query,
    answer: &QueryAnswer,
    model: &Model,
    lines: &[u32],
    watch: &mut W,
) -> Result<Details, NoMemory>
    requires query { HasNodes trials.now.nodes query.formula query.given query.both }
    requires model { IsModelFor trials.now model.now }
    requires right { IsRightFor trials.now query answer.now }
    requires proved { IsProvedFor trials.now query answer.now }
    ensures true_of { IfOk result (IsTrueOf trials.now query) }
    ensures asked { IfOk result (λ t. AreAsAsked settings answer.now t.lower t.upper) }
{
    let reached = reached_of(alloc, trials.problem(), query, answer, model)?;
    let (lower, upper) = sides_told(alloc, settings, trials, query, answer, lines, watch)?;
    Ok(Details {
        reached,
        lower,
        upper,
    })
}
