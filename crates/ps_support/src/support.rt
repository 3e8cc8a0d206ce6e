//! On which sentences a bound rests.
ghost use Rattle.std.specs.Prelude.{◌≡◌, ◌<◌, ◌≤◌, ◌≤ℤ◌, IfOk, Some, get_or, length, pos};
ghost use Rattle.std.specs.Prelude.{slice_get};
ghost use Rattle.std.specs.List.Sorted.{IsPermutation};
ghost use Rattle.ps_problem.specs.declared.limits.TheConstants.{GREATEST_SCALE};
ghost use Rattle.ps_problem.specs.Problems.{HasNodes, bounds_in};
ghost use Rattle.ps_claims.specs.Certificates.{IsSmallDual};
ghost use Rattle.ps_support.specs.Places.{places_in};
ghost use Rattle.ps_support.specs.Supports.{FallByWeight, IsShownBy, IsSupport, NamesAll, Notes};
ghost use Rattle.ps_support.specs.Supports.{has_condition, is_free, line_in, noted};
ghost use Rattle.ps_support.specs.Supports.{supports_in, told, unit_of};

use crate::bound_side::BoundSide;
use crate::places::{BoundPlace, End, bound_places};
use crate::rates::{hundredth_where, rate_of, size_of};
use ps_answer::Dual;
use ps_frac::Fraction;
use ps_io::{List, NoMemory};
use ps_problem::{BoundAt, Problem, Query};
use std::alloc::Global;
use std::cmp::Reverse;

/// A bound of a sentence on which a bound of a query rests.
#[derive(Drop)]
pub struct Supporting {
    /// The number of the sentence, from 1.
    pub sentence: u32,
    /// The line on which it begins; 0 where that isn't told.
    pub line: u32,
    /// Which number of the sentence it is about.
    pub end: End,
    /// How fast the query's bound moves with that number: a lower bound at least, an upper one at most.
    /// Where the sentence or the query has a condition, the multiplier alone.
    pub rate: Fraction,
    /// How far it moves where that number rises by 1/100; none where there is a condition.
    pub hundredth: Option<Fraction>,
    /// The size of its multiplier.
    pub weight: u128,
}

/// A bound of a query, and the sentences on which it rests.
#[derive(Drop)]
pub struct Support {
    /// The bound.
    pub value: Fraction,
    /// The sentences, those of the greatest weight first.
    pub sentences: List<Supporting>,
}

// Whether the sentence of the bound at a place has a condition.
fn has_condition(problem: &Problem, i: usize) -> bool
    requires { i < length (bounds_in problem.now.sentences) }
    ensures { result ≡ has_condition (slice_get (bounds_in problem.now.sentences) i) }
{
    // Called for its clauses: there are few bounds.
    let _few = problem.bounds();
    match problem.bound(i as u32 + 1) {
        Some(BoundAt::Plain(bound)) => bound.given.is_some(),
        Some(BoundAt::Linear { .. }) | None => false,
    }
}

// Whether neither the query nor the sentence of the bound at a place has a condition.
fn is_free(problem: &Problem, query: Query, i: usize) -> bool
    requires { i < length (bounds_in problem.now.sentences) }
    ensures { result ≡ is_free query (slice_get (bounds_in problem.now.sentences) i) }
{
    if query.given.is_some() {
        return false;
    }
    !has_condition(problem, i)
}

// The line on which the sentence of a number begins, from 1; 0 where it isn't told.
fn line_in(lines: &[u32], sentence: u32) -> u32
    ensures { result ≡ line_in lines.now sentence }
{
    let place = sentence.saturating_sub(1) as usize;
    lines.get(place).copied().unwrap_or(0)
}

// What the number of the bound at a place counts in.
#[tactic(auto, using(crate::proofs::Found::row_inside, crate::proofs::Found::unit_there))]
fn unit_at(problem: &Problem, i: usize) -> u32
    requires { i < length (bounds_in problem.now.sentences) }
    ensures value { result ≡ unit_of (slice_get (bounds_in problem.now.sentences) i) }
    ensures small { result ≤ GREATEST_SCALE }
{
    problem.rows()[i].unit
}

// The number at a place of these.
#[tactic(auto, using(crate::proofs::Found::read_at))]
fn number_at(numbers: &[i128], i: usize) -> i128
    requires { i < length numbers.now }
    ensures { result ≡ get_or numbers.now i (pos 0) }
{
    numbers[i]
}

// The multiplier of the bound at a place.
fn multiplier_at(dual: &Dual, i: usize) -> i128
    requires { i < length dual.now.rows }
    ensures { result ≡ get_or dual.now.rows i (pos 0) }
{
    number_at(dual.rows.as_slice(), i)
}

// A place of these.
#[tactic(auto, using(crate::proofs::Found::got, crate::proofs::Found::got_or))]
fn place_at(places: &[BoundPlace], i: usize) -> BoundPlace
    requires { i < length places.now }
    ensures { slice_get places.now i ≡ Some result }
{
    places[i]
}

// Notes what is told of the bound at a place.
fn push_supporting(
    into: &mut Vec<Supporting>,
    problem: &Problem,
    side: BoundSide,
    query: Query,
    dual: &Dual,
    lines: &[u32],
    i: usize,
    at: BoundPlace,
) -> Result<(), NoMemory>
    requires inside { i < length (bounds_in problem.now.sentences) }
    requires rows { length dual.now.rows ≡ length (bounds_in problem.now.sentences) }
    requires small { IsSmallDual dual.now }
    requires top { pos 1 ≤ℤ dual.now.top }
    ensures { Notes result into.old into.new
        (told problem.now side query dual.now lines.now (i, at)) }
{
    let size = size_of(multiplier_at(dual, i), unit_at(problem, i));
    let rate = rate_of(side, size, dual.top);
    let hundredth = hundredth_where(is_free(problem, query, i), side, size, dual.top);
    into.push(Supporting {
        sentence: at.sentence,
        line: line_in(lines, at.sentence),
        end: at.end,
        rate,
        hundredth,
        weight: size.unsigned_abs(),
    })?;
    Ok(())
}

// Notes the bound at a place, where its multiplier isn't 0.
#[tactic(auto, using(crate::proofs::Found::place_inside))]
fn note_supporting(
    found: &mut Vec<Supporting>,
    problem: &Problem,
    side: BoundSide,
    query: Query,
    dual: &Dual,
    lines: &[u32],
    places: &[BoundPlace],
    i: usize,
) -> Result<(), NoMemory>
    requires places { places.now ≡ places_in 1 problem.now.sentences }
    requires inside { i < length (bounds_in problem.now.sentences) }
    requires rows { length dual.now.rows ≡ length (bounds_in problem.now.sentences) }
    requires small { IsSmallDual dual.now }
    requires top { pos 1 ≤ℤ dual.now.top }
    ensures { Notes result found.old found.new
        (noted problem.now side query dual.now lines.now i) }
{
    let multiplier = multiplier_at(dual, i);
    if multiplier == 0 {
        return Ok(());
    }
    let place = place_at(places, i);
    push_supporting(found, problem, side, query, dual, lines, i, place)
}

// The bounds whose multipliers aren't 0, in the order of the problem, by the places of all bounds.
#[tactic(auto, using(crate::proofs::Found::none_found))]
fn supporting_by(
    alloc: Global,
    problem: &Problem,
    side: BoundSide,
    query: Query,
    dual: &Dual,
    lines: &[u32],
    places: &[BoundPlace],
) -> Result<Vec<Supporting>, NoMemory>
    requires places { places.now ≡ places_in 1 problem.now.sentences }
    requires rows { length dual.now.rows ≡ length (bounds_in problem.now.sentences) }
    requires small { IsSmallDual dual.now }
    requires top { pos 1 ≤ℤ dual.now.top }
    ensures { IfOk result (λ v. v.items
        ≡ supports_in problem.now side query dual.now lines.now) }
{
    let mut found = Vec::new(alloc);
    for i in 0..places.len() {
        note_supporting(&mut found, problem, side, query, dual, lines, places, i)?;
    }
    Ok(found)
}

// The bounds whose multipliers aren't 0, in the order of the problem.
#[tactic(auto, using(crate::proofs::Owned::sentences_within))]
fn all_supporting(
    alloc: Global,
    problem: &Problem,
    side: BoundSide,
    query: Query,
    dual: &Dual,
    lines: &[u32],
) -> Result<Vec<Supporting>, NoMemory>
    requires rows { length dual.now.rows ≡ length (bounds_in problem.now.sentences) }
    requires small { IsSmallDual dual.now }
    requires top { pos 1 ≤ℤ dual.now.top }
    ensures { IfOk result (λ v. v.items
        ≡ supports_in problem.now side query dual.now lines.now) }
{
    // Called for its clauses: the problem is in order.
    let _sound = problem.rows();
    let places = bound_places(alloc, problem.sentences().as_slice())?;
    supporting_by(alloc, problem, side, query, dual, lines, places.as_slice())
}

// The same bounds, those of the greatest weight first.
fn in_order(found: Vec<Supporting>) -> Result<List<Supporting>, NoMemory>
    ensures moved { IfOk result (λ ss. IsPermutation found.items ss) }
    ensures order { IfOk result FallByWeight }
{
    let mut sorted = found;
    sorted.sort_by_key(|one| Reverse(one.weight))?;
    Ok(List::from_vec(sorted))
}

/// The sentences on which a bound of a query rests, by the dual that shows it: those with a bound
/// whose multiplier isn't 0, the one of the greatest weight first, each with its line.
pub fn support_of(
    alloc: Global,
    problem: &Problem,
    side: BoundSide,
    query: Query,
    value: &Fraction,
    dual: &Dual,
    lines: &[u32],
) -> Result<Support, NoMemory>
    requires query { HasNodes problem.now.nodes query.formula query.given query.both }
    requires shown { IsShownBy problem.now side query value.now dual.now }
    requires small { IsSmallDual dual.now }

    // The bound holds in every distribution that meets these sentences alone.
    ensures rests { IfOk result (IsSupport problem.now query side) }

    // They are those with a multiplier other than 0, and none of less weight stands before another.
    ensures value { IfOk result (λ s. s.value ≡ value.now) }
    ensures sentences { IfOk result
        (NamesAll problem.now side query dual.now lines.now) }
    ensures order { IfOk result (λ s. FallByWeight s.sentences) }
{
    // Called for its clauses: the problem is in order.
    let _sound = problem.rows();
    let found = all_supporting(alloc, problem, side, query, dual, lines)?;
    let sentences = in_order(found)?;
    Ok(Support {
        value: *value,
        sentences,
    })
}
