//! Duals without the multipliers of certainties that they don't need.
ghost use Rattle.std.specs.Prelude.{◌≡◌, ◌↔◌, IfOk, IfSome, IsTrue};
ghost use Rattle.ps_problem.specs.Problems.{HasNodes};
ghost use Rattle.ps_support.specs.Supports.{kind_of};
ghost use Rattle.ps_guess.specs.Trials.{IsFoundSide};
ghost use Rattle.ps_ask.specs.Details.{HasDual, IsDualFor, last_of};
ghost use Rattle.ps_ask.specs.Known.{IsBoundAt};

use ps_answer::{Dual, Model, SideAnswer, Weighted};
use ps_claims::ClaimKind;
use ps_frac::Fraction;
use ps_guess::{Trial, Trials, Watch};
use ps_io::{List, NoMemory};
use ps_problem::{BoundAt, Problem, Query};
use ps_support::BoundSide;
use std::alloc::Global;

/// A search for the refutation of a dual without some multiplier learns at most so many clauses.
const CONFLICTS: u64 = 512;

// What is claimed of a bound.
fn kind_of(side: BoundSide) -> ClaimKind
    ensures { result ≡ kind_of side }
{
    match side {
        BoundSide::Lower => ClaimKind::Lower,
        BoundSide::Upper => ClaimKind::Upper,
    }
}

// Whether the bound at a place says that something is certain: that its probability is 0 or 1. A
// dual may have a multiplier for it that isn't needed.
fn is_certain(problem: &Problem, place: usize) -> bool {
    let Ok(before) = u32::try_from(place) else {
        return false;
    };
    match problem.bound(before.saturating_add(1)) {
        Some(BoundAt::Plain(bound)) => bound.num == 0 || bound.num == bound.den,
        Some(BoundAt::Linear { .. }) | None => false,
    }
}

// A copy of a distribution.
fn copy_of(alloc: Global, model: &Model) -> Result<Model, NoMemory> {
    let mut worlds = List::new(alloc);
    for weighted in model.worlds.as_slice() {
        worlds.push(Weighted {
            weight: weighted.weight,
            world: weighted.world.copy(alloc)?,
        })?;
    }
    Ok(Model {
        total: model.total,
        worlds,
    })
}

// The dual with 0 in place of the multiplier at a place, without steps.
fn without(alloc: Global, dual: &Dual, place: usize) -> Result<Dual, NoMemory> {
    let mut rows = List::new(alloc);
    for i in 0..dual.rows.len() {
        let multiplier = dual.rows.as_slice()[i];
        rows.push(if i == place { 0 } else { multiplier })?;
    }
    Ok(Dual {
        top: dual.top,
        head: dual.head,
        rows,
        steps: List::new(alloc),
    })
}

fn equal(a: i128, b: i128) -> bool
    ensures { IsTrue result ↔ (a ≡ b) }
{
    a == b
}

// Whether two values are the same.
#[tactic(auto, using(ps_valid::proofs::Quotients::same_number, ps_valid::proofs::Quotients::same_parts))]
fn is_same(a: &Fraction, b: &Fraction) -> bool
    ensures { IsTrue result ↔ (a.now ≡ b.now) }
{
    equal(a.numerator(), b.numerator()) && equal(a.denominator(), b.denominator())
}

// Whether a side is a bound at this value.
fn is_at(side: &SideAnswer, value: &Fraction) -> bool
    ensures { IsTrue result → IsBoundAt side.now value.now }
{
    match side {
        SideAnswer::Bound { value: shown, .. } => is_same(shown, value),
        SideAnswer::Open(_) => false,
    }
}

// The dual of a side, where it is a bound.
fn dual_in(side: SideAnswer) -> Option<Dual>
    ensures { IfSome result (HasDual side) }
{
    match side {
        SideAnswer::Bound { dual, .. } => Some(dual),
        SideAnswer::Open(_) => None,
    }
}

// The dual of a side that was found, where it shows this value.
#[tactic(auto, using(crate::proofs::DetailLaws::found_by))]
fn dual_at(
    trials: &Trials<'_>,
    side: BoundSide,
    query: Query,
    value: &Fraction,
    found: SideAnswer,
) -> Option<Dual>
    requires found { IsFoundSide trials.now (kind_of side) query found }
    ensures { IfSome result (IsDualFor trials.now side query value.now) }
{
    if !is_at(&found, value) {
        return None;
    }
    dual_in(found)
}

// A dual of these multipliers that shows the value, where a short search refutes it.
fn refuted_dual(
    alloc: Global,
    trials: &Trials<'_>,
    side: BoundSide,
    query: Query,
    value: &Fraction,
    model: &Model,
    dual: Dual,
) -> Result<Option<Dual>, NoMemory>
    requires query { HasNodes trials.now.nodes query.formula query.given query.both }
    ensures { IfOk result (λ o. IfSome o (IsDualFor trials.now side query value.now)) }
{
    let model = copy_of(alloc, model)?;
    match trials.bound(alloc, kind_of(side), query, model, dual, CONFLICTS)? {
        Trial::Shown(found) => Ok(dual_at(trials, side, query, value, found)),
        Trial::Found(_) | Trial::Wrong(_) | Trial::Spent => Ok(None),
    }
}

// The multiplier at a place, 0 past the end.
fn multiplier_at(dual: &Dual, place: usize) -> i128 {
    dual.rows.as_slice().get(place).copied().unwrap_or(0)
}

// A dual without the multiplier at a place, where that is of a certainty, isn't 0 and isn't needed.
fn without_certainty(
    alloc: Global,
    trials: &Trials<'_>,
    side: BoundSide,
    query: Query,
    value: &Fraction,
    model: &Model,
    dual: &Dual,
    place: usize,
) -> Result<Option<Dual>, NoMemory>
    requires query { HasNodes trials.now.nodes query.formula query.given query.both }
    ensures { IfOk result (λ o. IfSome o (IsDualFor trials.now side query value.now)) }
{
    if multiplier_at(dual, place) == 0 {
        return Ok(None);
    }
    if !is_certain(trials.problem(), place) {
        return Ok(None);
    }
    let less = without(alloc, dual, place)?;
    refuted_dual(alloc, trials, side, query, value, model, less)
}

// The last of two that there is.
fn last_of(before: Option<Dual>, last: Option<Dual>) -> Option<Dual>
    ensures { result ≡ last_of before last }
{
    match last {
        Some(dual) => Some(dual),
        None => before,
    }
}

/// A dual that shows the same bound and has no multiplier for certainties that it doesn't need, as
/// far as short searches tell and time is left. None where each is needed.
#[tactic(auto, using(crate::proofs::DetailLaws::last_shows))]
pub(crate) fn lean_dual<W: Watch>(
    alloc: Global,
    trials: &Trials<'_>,
    side: BoundSide,
    query: Query,
    value: &Fraction,
    model: &Model,
    dual: &Dual,
    watch: &mut W,
) -> Result<Option<Dual>, NoMemory>
    requires query { HasNodes trials.now.nodes query.formula query.given query.both }
    ensures { IfOk result (λ o. IfSome o (IsDualFor trials.now side query value.now)) }
{
    let mut least = None;
    for place in 0..dual.rows.len() {
        if watch.is_over() {
            return Ok(least);
        }
        let now = least.as_ref().unwrap_or(dual);
        let less = without_certainty(alloc, trials, side, query, value, model, now, place)?;
        least = last_of(least, less);
    }
    Ok(least)
}
