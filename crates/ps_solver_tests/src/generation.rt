ghost use Rattle.ps_claims.specs.declared.claim_kind.ClaimKind.TheVariants.{Nothing};
ghost use Rattle.ps_runs.specs.Subjects.{IsAsked};
ghost use Rattle.ps_generation.specs.Phases.{HasRoom, IsNewState};

use crate::problems::{CHAIN, CONTRADICTORY, LIMITS, SINGLE, problem};
use ps_claims::ClaimKind;
use ps_generation::{End, Setting, State, run_phase};
use ps_io::NoMemory;
use ps_problem::Problem;
use std::alloc::Global;
use std::test::*;

// How phase one ends, and how many pivots it takes.
fn end_of(alloc: Global, setting: &Setting<'_>, state: &mut State) -> Result<(End, u64), NoMemory>
    requires asked { IsAsked Nothing setting.now.subject.parts setting.now.subject.query }
    requires new { IsNewState setting.now state.old }
    requires room { HasRoom state.old }
{
    let left = state.left;
    let mut costs = setting.costs(alloc, ClaimKind::Nothing, state)?;
    let end = run_phase(alloc, setting, ClaimKind::Nothing, state, &mut costs)?;
    Ok((end, left - state.left))
}

// How phase one ends, and how many worlds and pivots it takes.
fn ended(alloc: Global, problem: &Problem, kept: &[bool]) -> Result<(End, u32, u64), NoMemory> {
    if problem.sentences().len() != kept.len() {
        return Err(NoMemory);
    }
    let setting = Setting::new(alloc, problem, kept, None, LIMITS)?;
    let mut state = setting.start(alloc)?;
    let (end, pivots) = end_of(alloc, &setting, &mut state)?;
    Ok((end, state.pool.len(), pivots))
}

// Each world is a column, and a pivot brings it into the basis.
fn is_feasible(alloc: Global) -> bool {
    match problem(alloc, SINGLE) {
        Some(problem) => match ended(alloc, &problem, &[true]) {
            Ok((End::Feasible, worlds, pivots)) => worlds == 2 && pivots == 2,
            Ok(_) | Err(_) => false,
        },
        None => false,
    }
}

// The bounds contradict each other: the steps of the dual refute that a world improves.
fn is_refuted(alloc: Global) -> bool {
    match problem(alloc, CONTRADICTORY) {
        Some(problem) => match ended(alloc, &problem, &[true, true]) {
            Ok((End::NoneAbove(dual), _, _)) => dual.head >= 1 && dual.steps.len() > 0,
            Ok(_) | Err(_) => false,
        },
        None => false,
    }
}

// The world that meets both bounds alone is the first, though false is tried first without it: one
// pivot brings it into the basis in place of the artificial column, and the slacks stay.
fn ends_at_the_first_world(alloc: Global) -> bool {
    match problem(alloc, CHAIN) {
        Some(problem) => match ended(alloc, &problem, &[true, true]) {
            Ok((End::Feasible, worlds, pivots)) => worlds == 1 && pivots == 1,
            Ok(_) | Err(_) => false,
        },
        None => false,
    }
}

#[test]
fn phase_one_ends_feasible_or_refuted(rt: HostRuntime) -> Result<(), Fail> {
    let alloc = rt.alloc();
    assert!(rt; is_feasible(alloc));
    assert!(rt; is_refuted(alloc));
    Ok(())
}

#[test]
fn a_world_that_meets_all_bounds_is_first(rt: HostRuntime) -> Result<(), Fail> {
    let alloc = rt.alloc();
    assert!(rt; ends_at_the_first_world(alloc));
    Ok(())
}
