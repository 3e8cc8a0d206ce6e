//! The greatest value of two weighted literals that exclude one another, over a log in memory and
//! logs of lines.
ghost use Rattle.std.specs.Prelude.{◌≡◌, []};
ghost use Rattle.ps_maxsat.specs.Limits.{IsNarrow, IsSoftWithin};

use crate::forms::add;
use ps_clause::ClauseForm;
use ps_io::{Lines, List, MemSink, NoMemory};
use ps_log::{HeldLog, TextLog};
use ps_maxsat::{Priced, Wcnf, best};
use ps_pb::Lit;
use ps_sat::SearchError;
use std::alloc::Global;

/// So many clauses each search is let learn.
const CONFLICTS: u64 = 20_000;

/// The goal of value 1 where the base is -4, and its refutation: the goal wants both variables, and
/// the clause one of them at most.
const REFUTED: &[u8] = b"g 5 3 1 2 2 0\ns 3 0 2 1 0\n";

// Not both of two variables.
fn not_both(alloc: Global) -> Result<ClauseForm, NoMemory> {
    let mut form = ClauseForm::new(alloc, 2);
    add(
        &mut form,
        &[Lit::of_place(0, false), Lit::of_place(1, false)],
    )?;
    Ok(form)
}

// Two variables with their weights.
fn weighing(alloc: Global, first: i128, second: i128) -> Result<List<(Lit, i128)>, NoMemory> {
    let soft = [
        (Lit::of_place(0, true), first),
        (Lit::of_place(1, true), second),
    ];
    Ok(List::from_vec(Vec::from_slice(alloc, &soft)?))
}

/// Not both of two variables, of which the first weighs 3 and the second 2.
fn one_of_two(alloc: Global, base: i128) -> Result<Wcnf, NoMemory> {
    Ok(Wcnf {
        hard: not_both(alloc)?,
        soft: weighing(alloc, 3, 2)?,
        base,
    })
}

/// With the base 0 the greatest value is 3.
pub fn is_3(alloc: Global) -> Result<bool, SearchError> {
    let (priced, _) = held(alloc, 0)?;
    Ok(matches!(priced, Some(Priced::Best { value: 3, .. })))
}

/// With the base -4 no value is 1 or more, which one step refutes.
pub fn is_none_above(alloc: Global) -> Result<bool, SearchError> {
    let (priced, steps) = held(alloc, -4)?;
    Ok(matches!(priced, Some(Priced::NoneAbove { last: 3 })) && steps == 1)
}

/// Where the first weighs 2000 and the second 1000, and the base is -500, two searches find that the
/// greatest value is 1500. The first finds it. The second is for 2001, halfway up to 2500: it is
/// refuted, and no value lies between 1500 and 2001, since the weights are multiples of 1000.
pub fn is_1500_by_two_searches(alloc: Global) -> Result<bool, SearchError> {
    let wcnf = Wcnf {
        hard: not_both(alloc)?,
        soft: weighing(alloc, 2000, 1000)?,
        base: -500,
    };
    let (priced, _) = held_best(alloc, &wcnf)?;
    Ok(matches!(
        priced,
        Some(Priced::Best {
            value: 1500,
            searches: 2,
            ..
        })
    ))
}

// The answer where the first weighs 3 and the second 2.
fn held(alloc: Global, base: i128) -> Result<(Option<Priced>, usize), SearchError> {
    held_best(alloc, &one_of_two(alloc, base)?)
}

// The answer over a log in memory, and the number of the steps of its last search.
fn held_best(alloc: Global, wcnf: &Wcnf) -> Result<(Option<Priced>, usize), SearchError> {
    if !wcnf.is_narrow() || !wcnf.is_soft_within() {
        return Ok((None, 0));
    }
    let mut log = HeldLog::new(alloc);
    let priced = best(alloc, wcnf, CONFLICTS, &mut log)?;
    Ok((Some(priced), log.take_steps().as_slice().len()))
}

/// The first over a log of lines.
pub fn is_written_3(alloc: Global) -> Result<bool, SearchError> {
    let (priced, _) = in_lines(alloc, 0)?;
    Ok(matches!(priced, Some(Priced::Best { value: 3, .. })))
}

/// The second over a log of lines, which has just the goal and the refutation.
pub fn is_written_none_above(alloc: Global) -> Result<bool, SearchError> {
    let (priced, sink) = in_lines(alloc, -4)?;
    let none = matches!(priced, Some(Priced::NoneAbove { last: 3 }));
    Ok(none && sink.bytes() == REFUTED)
}

// The answer over a log of lines, and the sink of the lines.
fn in_lines(alloc: Global, base: i128) -> Result<(Option<Priced>, MemSink), SearchError> {
    let wcnf = one_of_two(alloc, base)?;
    let mut sink = MemSink::new(alloc, 100, Vec::new(alloc), 1000)?;
    if !wcnf.is_narrow() || !wcnf.is_soft_within() || !sink.bytes().is_empty() {
        return Ok((None, sink));
    }
    let priced = best_in_lines(alloc, &wcnf, &mut sink)?;
    Ok((Some(priced), sink))
}

// The answer over a log of lines.
fn best_in_lines(alloc: Global, wcnf: &Wcnf, sink: &mut MemSink) -> Result<Priced, SearchError>
    requires empty { sink.old.written ≡ [] }
    requires narrow { IsNarrow wcnf.now }
    requires soft { IsSoftWithin wcnf.now }
{
    let lines = Lines::new(alloc, sink)?;
    let mut log = TextLog::new(lines);
    best(alloc, wcnf, CONFLICTS, &mut log)
}
