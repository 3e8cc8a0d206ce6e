ghost use Rattle.ps_generation.specs.Runs.{IsAtStart};

use crate::problems::{CONTRADICTORY, LIMITS, SINGLE, THREE, problem};
use ps_generation::{First, Run};
use ps_problem::Problem;
use std::alloc::Global;
use std::test::*;

// What phase one of a run at its start answers, where it has events.
fn begin(run: &mut Run<'_>) -> Option<First>
    requires { IsAtStart run.old }
{
    let first = run.phase_one().ok()?;
    if run.take_trace().len() == 0 {
        return None;
    }
    Some(first)
}

fn first_of(alloc: Global, problem: &Problem, kept: &[bool]) -> Option<First> {
    if problem.sentences().len() != kept.len() {
        return None;
    }
    let mut run = Run::new(alloc, problem, kept, None, LIMITS).ok()?;
    begin(&mut run)
}

// Whether the world where `a` is true weighs a third.
fn is_reached(alloc: Global, problem: &Problem, kept: &[bool]) -> bool {
    match first_of(alloc, problem, kept) {
        Some(First::Reached(model)) => model.total == 3 && model.worlds.len() == 2,
        _ => false,
    }
}

fn is_nothing(alloc: Global, problem: &Problem, kept: &[bool]) -> bool {
    match first_of(alloc, problem, kept) {
        Some(First::Nothing(dual)) => dual.top == 0 && are_rows_of(dual.rows.as_slice(), kept),
        _ => false,
    }
}

// Each bound that is kept has a multiplier, and each other has 0.
fn are_rows_of(rows: &[i128], kept: &[bool]) -> bool {
    if rows.len() != kept.len() {
        return false;
    }
    for i in 0..kept.len() {
        if (rows[i] != 0) != kept[i] {
            return false;
        }
    }
    true
}

#[test]
fn a_single_sentence_is_reached(rt: HostRuntime) -> Result<(), Fail> {
    let alloc = rt.alloc();
    let right = match problem(alloc, SINGLE) {
        Some(problem) => is_reached(alloc, &problem, &[true]),
        None => false,
    };
    assert!(rt; right);
    Ok(())
}

#[test]
fn sentences_that_contradict_each_other_end_with_a_dual(rt: HostRuntime) -> Result<(), Fail> {
    let alloc = rt.alloc();
    let right = match problem(alloc, CONTRADICTORY) {
        Some(problem) => {
            is_nothing(alloc, &problem, &[true, true])
                && is_reached(alloc, &problem, &[true, false])
        }
        None => false,
    };
    assert!(rt; right);
    Ok(())
}

#[test]
fn bounds_that_are_left_out_have_multiplier_0(rt: HostRuntime) -> Result<(), Fail> {
    let alloc = rt.alloc();
    let right = match problem(alloc, THREE) {
        Some(problem) => {
            is_nothing(alloc, &problem, &[true, false, true])
                && is_nothing(alloc, &problem, &[true, true, false])
        }
        None => false,
    };
    assert!(rt; right);
    Ok(())
}
