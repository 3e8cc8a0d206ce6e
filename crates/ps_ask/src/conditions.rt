//! Conditions of sentences that no distribution gives weight.
ghost use Rattle.std.specs.Prelude.{◌≡◌, true, IfOk, OnOk};
ghost use Rattle.ps_problem.specs.Problems.{IsSentence};
ghost use Rattle.ps_ask.specs.Conditions.{AreIdleWarnings, IsIdle, condition_of};
ghost use Rattle.ps_ask.specs.Shown.{AreSettings};

use crate::company::Company;
use crate::notes::Input;
use crate::settings::Settings;
use crate::sought::Sought;
use crate::weights::truth_in;
use ps_answer::{Answer, Model, QueryAnswer, SideAnswer, Verdict};
use ps_engine::Engine;
use ps_guess::{InTime, Trials, nothing_in_time};
use ps_hints::{Warning, idle_warning, sentence_lines};
use ps_io::{List, NoMemory};
use ps_problem::{Problem, Query, Sentence};
use std::alloc::Global;

/// Warnings about sentences whose condition no distribution gives weight.
#[derive(Drop)]
pub(crate) struct IdleWarnings {
    /// The places of the sentences among those of the problem, from 0.
    pub(crate) sentences: List<usize>,
    /// A warning about each, in the same order.
    pub(crate) warnings: Vec<Warning>,
}

// Marks the nodes of formulas that are true in a world of the distribution: it gives them weight.
fn mark_by_model(
    alloc: Global,
    problem: &Problem,
    model: &Model,
    marks: &mut Vec<bool>,
) -> Result<(), NoMemory> {
    for weighted in model.worlds.as_slice() {
        if let Some(truth) = truth_in(alloc, problem, &weighted.world)? {
            mark_true(&truth, marks);
        }
    }
    Ok(())
}

// Marks the nodes that are true in a world.
fn mark_true(truth: &[bool], marks: &mut Vec<bool>) {
    for (place, is_true) in truth.iter().enumerate() {
        if *is_true && place < marks.len() {
            marks[place] = true;
        }
    }
}

// Marks the nodes that the distribution of a side gives weight, where the side has one.
fn mark_by_side(
    alloc: Global,
    problem: &Problem,
    side: &SideAnswer,
    marks: &mut Vec<bool>,
) -> Result<(), NoMemory> {
    match side {
        SideAnswer::Bound { model, .. } => mark_by_model(alloc, problem, model, marks),
        SideAnswer::Open(_) => Ok(()),
    }
}

// Whether each node, in order, has weight in the verdict's distribution or in that of some side.
fn weighed_in(
    alloc: Global,
    problem: &Problem,
    model: &Model,
    answer: &Answer,
) -> Result<Vec<bool>, NoMemory> {
    let mut marks = vec![in alloc; false; problem.formulas().len() as usize]?;
    mark_by_model(alloc, problem, model, &mut marks)?;
    for part in answer.parts.as_slice() {
        if let QueryAnswer::Bounds { lower, upper, .. } = &part.answer {
            mark_by_side(alloc, problem, lower, &mut marks)?;
            mark_by_side(alloc, problem, upper, &mut marks)?;
        }
    }
    Ok(marks)
}

// The condition of a sentence, if it has one: a linear one has none.
fn condition(sentence: &Sentence) -> Option<u32> {
    match sentence {
        Sentence::Plain { first, .. } => first.given,
        Sentence::Linear(_) => None,
    }
}

// Whether a sentence has a condition that none of the distributions gives weight.
fn is_unweighed(sentence: &Sentence, weighed: &[bool]) -> bool {
    match condition(sentence) {
        Some(given) => weighed.get(given as usize) == Some(&false),
        None => false,
    }
}

// Whether it is shown in time that no distribution that meets the sentences gives the condition of
// this one weight.
fn is_idle<W: Company>(
    alloc: Global,
    settings: Settings,
    trials: &Trials<'_>,
    sentence: &Sentence,
    timed: &mut InTime<'_, Engine, W>,
) -> Result<bool, NoMemory>
    requires settings { AreSettings settings }
    requires sentence { IsSentence trials.now.nodes sentence.now }
    ensures { IfOk result (λ told. told ≡ true → IsIdle trials.now (condition_of sentence.now)) }
{
    let Sentence::Plain { first, .. } = sentence else {
        return Ok(false);
    };
    // Called for its clause: the problem is in order.
    let _sound = trials.problem();
    timed.watch.turn_to(Sought::Conditions);
    let query = Query {
        formula: first.formula,
        given: first.given,
        both: first.both,
    };
    if let Some(_dual) = nothing_in_time(alloc, trials, query, settings.limits, timed)? {
        return Ok(true);
    }
    Ok(false)
}

// The places of the sentences whose condition none of these distributions gives weight.
fn unweighed_places(
    alloc: Global,
    problem: &Problem,
    model: &Model,
    answer: &Answer,
) -> Result<List<usize>, NoMemory> {
    let weighed = weighed_in(alloc, problem, model, answer)?;
    let mut places = List::new(alloc);
    for (place, sentence) in problem.sentences().as_slice().iter().enumerate() {
        if is_unweighed(sentence, &weighed) {
            places.push(place)?;
        }
    }
    Ok(places)
}

// Adds a warning about the sentence at a place where it is shown in time that no distribution gives
// its condition weight.
#[tactic(auto, using(ps_spoken::proofs::ClashLists::sentence_there))]
fn note_idle<W: Company>(
    alloc: Global,
    settings: Settings,
    trials: &Trials<'_>,
    place: usize,
    line: Option<u32>,
    noted: &mut IdleWarnings,
    timed: &mut InTime<'_, Engine, W>,
) -> Result<(), NoMemory>
    requires settings { AreSettings settings }
    requires noted { AreIdleWarnings trials.now noted.old }
    ensures { OnOk result (AreIdleWarnings trials.now noted.new) }
{
    let problem = trials.problem();
    let Some(sentence) = problem.sentences().get(place) else {
        return Ok(());
    };
    if !is_idle(alloc, settings, trials, sentence, timed)? {
        return Ok(());
    }
    let warning = idle_warning(alloc, line, problem, sentence)?;
    noted.warnings.push(warning)?;
    noted.sentences.push(place)?;
    Ok(())
}

// A warning about each sentence at these places whose condition no distribution gives weight, as far
// as that is shown in time.
fn idle_among<W: Company>(
    alloc: Global,
    settings: Settings,
    input: Input<'_>,
    trials: &Trials<'_>,
    places: &[usize],
    timed: &mut InTime<'_, Engine, W>,
) -> Result<IdleWarnings, NoMemory>
    requires settings { AreSettings settings }
    ensures { IfOk result (AreIdleWarnings trials.now) }
{
    let lines = sentence_lines(alloc, input.bytes)?;
    let mut noted = IdleWarnings {
        sentences: List::new(alloc),
        warnings: Vec::new(alloc),
    };
    for place in places {
        let line = lines.get(*place).copied();
        note_idle(alloc, settings, trials, *place, line, &mut noted, timed)?;
    }
    Ok(noted)
}

/// The warnings about sentences whose condition no distribution gives weight, where the verdict is
/// that there are distributions, and as far as that is shown in time.
pub(crate) fn idle_noted<W: Company>(
    alloc: Global,
    settings: Settings,
    input: Input<'_>,
    trials: &Trials<'_>,
    answer: &Answer,
    timed: &mut InTime<'_, Engine, W>,
) -> Result<IdleWarnings, NoMemory>
    requires settings { AreSettings settings }
    ensures { IfOk result (AreIdleWarnings trials.now) }
{
    let Verdict::Consistent(model) = &answer.verdict else {
        return Ok(IdleWarnings {
            sentences: List::new(alloc),
            warnings: Vec::new(alloc),
        });
    };
    let places = unweighed_places(alloc, trials.problem(), model, answer)?;
    idle_among(alloc, settings, input, trials, places.as_slice(), timed)
}
