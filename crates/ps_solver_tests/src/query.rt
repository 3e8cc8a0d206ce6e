use crate::problems::{ASKED, LIMITS, problem};
use ps_answer::{QueryAnswer, SideAnswer};
use ps_problem::Problem;
use ps_query::solve;
use std::alloc::Global;
use std::test::*;

fn is_value(side: &SideAnswer, over: i128, under: i128) -> bool {
    match side {
        SideAnswer::Bound { value, .. } => {
            value.numerator() == over && value.denominator() == under
        }
        SideAnswer::Open(_) => false,
    }
}

fn is_from_a_third_to_one(answer: &QueryAnswer) -> bool {
    match answer {
        QueryAnswer::Bounds { lower, upper, .. } => is_value(lower, 1, 3) && is_value(upper, 1, 1),
        QueryAnswer::Impossible(_) | QueryAnswer::Open(_) => false,
    }
}

fn is_answered(alloc: Global, problem: &Problem) -> bool {
    match solve(alloc, problem, LIMITS) {
        Ok(answer) => match answer.parts.get(0) {
            Some(part) => answer.parts.len() == 1 && is_from_a_third_to_one(&part.answer),
            None => false,
        },
        Err(_) => false,
    }
}

#[test]
fn a_query_has_its_bounds(rt: HostRuntime) -> Result<(), Fail> {
    let alloc = rt.alloc();
    let right = match problem(alloc, ASKED) {
        Some(problem) => is_answered(alloc, &problem),
        None => false,
    };
    assert!(rt; right);
    Ok(())
}
