ghost use Rattle.std.specs.Prelude.{◌≡◌, ◌≤◌, IfOk, length, unsigned_abs};
ghost use Rattle.ps_claims.specs.Certificates.{IsSmallDual};

use crate::problems::{CONTRADICTORY, problem};
use ps_answer::Dual;
use ps_claims::ClaimKind;
use ps_io::{List, NoMemory};
use ps_pricing::{Pricer, Pricing};
use ps_problem::Problem;
use std::alloc::Global;
use std::test::*;

// A dual of head 1 with this multiplier of the first bound, and 1 of the second.
fn a_dual(alloc: Global, first: i128) -> Result<Dual, NoMemory>
    requires { unsigned_abs first ≤ 1 }
    ensures small { IfOk result IsSmallDual }
    ensures rows { IfOk result (λ d. length d.rows ≡ 2) }
{
    let mut rows = List::new(alloc);
    rows.push(first)?;
    rows.push(1)?;
    Ok(Dual {
        top: 0,
        head: 1,
        rows,
        steps: List::new(alloc),
    })
}

fn priced(alloc: Global, problem: &Problem, first: i128) -> Result<Pricing, NoMemory>
    requires { unsigned_abs first ≤ 1 }
{
    let dual = a_dual(alloc, first)?;
    if problem.sentences().len() != 2 {
        return Err(NoMemory);
    }
    let pricer = Pricer::new(alloc, problem, &[true, true], None, 20_000)?;
    if pricer.rows().len() != 2 {
        return Err(NoMemory);
    }
    pricer.price(alloc, ClaimKind::Nothing, dual)
}

fn is_found(pricing: &Pricing) -> bool {
    match pricing {
        Pricing::Found(world) => world.as_slice() == [true].as_slice(),
        Pricing::Refuted(_) | Pricing::Spent { .. } => false,
    }
}

fn is_refuted(pricing: &Pricing) -> bool {
    match pricing {
        Pricing::Refuted(dual) => dual.head == 1 && dual.steps.len() == 1,
        Pricing::Found(_) | Pricing::Spent { .. } => false,
    }
}

// The multipliers 1 and 1 make 6*[a] - 2, which is 4 where `a` is true; -1 and 1 make 0.
fn is_priced(alloc: Global, problem: &Problem) -> bool {
    let found = match priced(alloc, problem, 1) {
        Ok(pricing) => is_found(&pricing),
        Err(_) => false,
    };
    let refuted = match priced(alloc, problem, -1) {
        Ok(pricing) => is_refuted(&pricing),
        Err(_) => false,
    };
    found && refuted
}

#[test]
fn the_greatest_combination_is_found_or_refuted(rt: HostRuntime) -> Result<(), Fail> {
    let alloc = rt.alloc();
    let right = match problem(alloc, CONTRADICTORY) {
        Some(problem) => is_priced(alloc, &problem),
        None => false,
    };
    assert!(rt; right);
    Ok(())
}
