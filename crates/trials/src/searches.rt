//! Counts of trials that went as they should.
ghost use Rattle.std.specs.Prelude.{◌≤◌};

use crate::draw::Draw;
use crate::forms::{pigeons, three_clauses};
use crate::pricings::{
    is_3, is_1500_by_two_searches, is_none_above, is_written_3, is_written_none_above,
};
use crate::problems::{Greatest, random_problem};
use crate::refutations::{Ended, search_and_check};
use crate::rows::{
    is_fault, is_refuted_at_1, is_refuted_in_lines, is_spent_at_0, is_spent_in_lines,
};
use ps_sat::SearchError;
use std::alloc::Global;

fn one(holds: bool) -> u32
    ensures { result ≤ 1 }
{
    if holds { 1 } else { 0 }
}

/// How many of five small searches end as they should.
pub fn rows(alloc: Global) -> Result<u32, SearchError> {
    let spent = one(is_spent_at_0(alloc)?);
    let refuted = one(is_refuted_at_1(alloc)?);
    let spent_in_lines = one(is_spent_in_lines(alloc)?);
    let refuted_in_lines = one(is_refuted_in_lines(alloc)?);
    let fault = one(is_fault(alloc)?);
    Ok(spent + refuted + spent_in_lines + refuted_in_lines + fault)
}

/// How many of five small problems have the greatest value that they should.
pub fn pricings(alloc: Global) -> Result<u32, SearchError> {
    let three = one(is_3(alloc)?);
    let none = one(is_none_above(alloc)?);
    let written_three = one(is_written_3(alloc)?);
    let written_none = one(is_written_none_above(alloc)?);
    let apart = one(is_1500_by_two_searches(alloc)?);
    Ok(three + none + written_three + written_none + apart)
}

/// How many of so many forms of 60 variables and 258 clauses were found or refuted to the checker's
/// end, and the number of steps in all.
pub fn sixty_variables(alloc: Global, forms: u32) -> Result<(u32, u64), SearchError> {
    let mut draw = Draw::new(1);
    let mut decided = 0u32;
    let mut steps = 0u64;
    for _ in 0..forms {
        let form = three_clauses(alloc, &mut draw, 60, 258)?;
        let (ended, count) = search_and_check(alloc, form)?;
        decided = decided.wrapping_add(one(ended != Ended::Untaken));
        steps = steps.wrapping_add(count);
    }
    Ok((decided, steps))
}

/// How many of so many refutations of small forms the checker took, where at most ten times as many
/// forms are searched.
pub fn refutations(alloc: Global, wanted: u32) -> Result<u32, SearchError> {
    let mut draw = Draw::new(2);
    let mut taken = 0u32;
    for _ in 0..wanted as u64 * 10 {
        if taken < wanted {
            let form = three_clauses(alloc, &mut draw, 20, 110)?;
            let (ended, _) = search_and_check(alloc, form)?;
            if ended == Ended::Untaken {
                return Ok(taken);
            }
            taken = taken.wrapping_add(one(ended == Ended::Taken));
        }
    }
    Ok(taken)
}

/// Whether six pigeons in five holes are refuted, and the number of steps.
pub fn six_pigeons(alloc: Global) -> Result<(bool, u64), SearchError> {
    let (ended, steps) = search_and_check(alloc, pigeons(alloc)?)?;
    Ok((ended == Ended::Taken, steps))
}

/// How many of so many weighted problems of 3 to 14 variables have the value that all assignments
/// tell.
pub fn weighted_problems(alloc: Global, problems: u32) -> Result<u32, SearchError> {
    let mut draw = Draw::new(3);
    let mut same = 0u32;
    for _ in 0..problems {
        let variables = 3 + draw.below(12) as u32;
        let clauses = draw.below(50) as u32;
        let soft = draw.below(14) as u32;
        let problem = random_problem(alloc, &mut draw, variables, clauses, soft)?;
        same = same.wrapping_add(one(problem.by_trying() == problem.by_search(alloc)?));
    }
    Ok(same)
}

/// How many of so many problems of 40 variables, 100 clauses and 20 soft literals have a value.
pub fn forty_variables(alloc: Global, problems: u32) -> Result<u32, SearchError> {
    let mut draw = Draw::new(4);
    let mut some = 0u32;
    for _ in 0..problems {
        let problem = random_problem(alloc, &mut draw, 40, 100, 20)?;
        let greatest = problem.by_search(alloc)?;
        some = some.wrapping_add(one(matches!(greatest, Greatest::Is(_))));
    }
    Ok(some)
}
