//! Four clauses over two variables that nothing meets, over a log in memory and logs of lines.
ghost use Rattle.std.specs.Prelude.{◌≡◌, ◌≤◌, []};
ghost use Rattle.ps_pb.specs.Weights.{IsWithin};
ghost use Rattle.ps_log.specs.declared.limits.TheConstants.{MOST_CONFLICTS};

use crate::forms::add;
use crate::refutations::{is_within, no_goal};
use ps_clause::ClauseForm;
use ps_io::{Lines, MemSink, NoMemory};
use ps_log::{HeldLog, TextLog};
use ps_pb::{Constraint, Lit};
use ps_sat::{MOST_CONFLICTS, Outcome, SearchError, search};
use std::alloc::Global;

/// The line of the goal that everything meets.
const NO_GOAL: &[u8] = b"g 0 0\n";

// Whether the first of two variables is to be true in a clause, and whether the second is.
const SIGNS: [(bool, bool); 4] = [(true, true), (true, false), (false, true), (false, false)];

// Adds the clause of a literal of each variable.
fn add_both(form: &mut ClauseForm, first: bool, second: bool) -> Result<(), NoMemory> {
    add(form, &[Lit::of_place(0, first), Lit::of_place(1, second)])
}

/// Each clause of two literals of two variables.
fn all_four(alloc: Global) -> Result<ClauseForm, NoMemory> {
    let mut form = ClauseForm::new(alloc, 2);
    for (first, second) in SIGNS {
        add_both(&mut form, first, second)?;
    }
    Ok(form)
}

/// With no conflict to spend the search is spent at once, and hands over no step.
pub fn is_spent_at_0(alloc: Global) -> Result<bool, SearchError> {
    let (outcome, steps) = held(alloc, 0)?;
    Ok(matches!(outcome, Some(Outcome::Spent { learned: 0 })) && steps == 0)
}

/// With one it is refuted by two steps, the second of which is the seventh constraint.
pub fn is_refuted_at_1(alloc: Global) -> Result<bool, SearchError> {
    let (outcome, steps) = held(alloc, 1)?;
    Ok(matches!(outcome, Some(Outcome::Refuted { last: 7 })) && steps == 2)
}

// The outcome over a log in memory, and the number of its steps.
fn held(alloc: Global, conflicts: u64) -> Result<(Option<Outcome>, usize), SearchError> {
    let form = all_four(alloc)?;
    let goal = no_goal(alloc)?;
    if MOST_CONFLICTS < conflicts || !is_within(form.variables(), &goal) {
        return Ok((None, 0));
    }
    let mut log = HeldLog::new(alloc);
    let outcome = search(alloc, &form, &goal, conflicts, &mut log)?;
    Ok((Some(outcome), log.take_steps().as_slice().len()))
}

/// The same over a log of lines: with no conflict to spend only the goal is written.
pub fn is_spent_in_lines(alloc: Global) -> Result<bool, SearchError> {
    let (outcome, sink) = in_lines(alloc, 0, Vec::new(alloc))?;
    let spent = matches!(outcome, Some(Ok(Outcome::Spent { learned: 0 })));
    Ok(spent && sink.bytes() == NO_GOAL)
}

/// And with one the goal and two steps.
pub fn is_refuted_in_lines(alloc: Global) -> Result<bool, SearchError> {
    let (outcome, sink) = in_lines(alloc, 1, Vec::new(alloc))?;
    let refuted = matches!(outcome, Some(Ok(Outcome::Refuted { last: 7 })));
    Ok(refuted && lines(sink.bytes()) == 3)
}

/// The log fails where the sink does at the line of the second step.
pub fn is_fault(alloc: Global) -> Result<bool, SearchError> {
    let (outcome, sink) = in_lines(alloc, 1, failing_at(alloc, 3)?)?;
    let fault = matches!(outcome, Some(Err(SearchError::LogFault)));
    Ok(fault && lines(sink.bytes()) == 2)
}

fn failing_at(alloc: Global, call: u64) -> Result<Vec<u64>, NoMemory> {
    let mut failing = Vec::new(alloc);
    failing.push(call)?;
    Ok(failing)
}

// The outcome over a log of lines, where these calls of its sink fail, and the sink.
fn in_lines(
    alloc: Global,
    conflicts: u64,
    failing: Vec<u64>,
) -> Result<(Option<Result<Outcome, SearchError>>, MemSink), SearchError> {
    let form = all_four(alloc)?;
    let goal = no_goal(alloc)?;
    let mut sink = MemSink::new(alloc, 100, failing, 100)?;
    if MOST_CONFLICTS < conflicts
        || !is_within(form.variables(), &goal)
        || !sink.bytes().is_empty()
    {
        return Ok((None, sink));
    }
    let outcome = search_in_lines(alloc, &form, &goal, conflicts, &mut sink);
    Ok((Some(outcome), sink))
}

// The outcome over a log of lines.
fn search_in_lines(
    alloc: Global,
    form: &ClauseForm,
    goal: &Constraint,
    conflicts: u64,
    sink: &mut MemSink,
) -> Result<Outcome, SearchError>
    requires empty { sink.old.written ≡ [] }
    requires goal { IsWithin form.now.variables goal.now }
    requires few { conflicts ≤ MOST_CONFLICTS }
{
    let lines = Lines::new(alloc, sink)?;
    let mut log = TextLog::new(lines);
    search(alloc, form, goal, conflicts, &mut log)
}

fn lines(bytes: &[u8]) -> u64 {
    let mut lines = 0u64;
    for byte in bytes {
        if *byte == b'\n' {
            lines = lines.wrapping_add(1);
        }
    }
    lines
}
