//! What problems come to without one of their sentences.
ghost use Rattle.ps_generation.specs.Phases.{AreLimits};

use super::{Fixed, Kind, NO_PIVOTS, THIRDS};
use crate::problems::{LIMITS, problem_of};
use ps_answer::Verdict;
use ps_explain::{Limits, verdict_without};
use ps_problem::Problem;
use std::alloc::Global;
use std::test::*;

const TWICE: &[u8] = b"psat 1; P(a) = 1/3; P(a) = 2/3; P(b) = 1/4; P(b) = 3/4; end;";

const THREE: &[u8] = b"psat 1; P(a) >= 1/2; P(a) <= 1/4; P(a) <= 1/3; end;";

/// How many pivots a run has.
#[derive(Clone, Copy, Drop)]
enum Pivots {
    Enough,
    None,
}

/// Which verdict it is.
#[derive(Clone, Copy, PartialEq, Drop)]
enum Told {
    Consistent,
    Inconsistent,
    Open,
}

// A problem, one of its sentences by its number, and what the problem comes to without it.
struct Row {
    text: &'static [u8],
    sentence: u32,
    pivots: Pivots,
    told: Told,
}

const RESTS: [Row; 8] = [
    Row {
        text: THIRDS,
        sentence: 1,
        pivots: Pivots::Enough,
        told: Told::Consistent,
    },
    Row {
        text: THIRDS,
        sentence: 2,
        pivots: Pivots::Enough,
        told: Told::Consistent,
    },
    Row {
        text: THIRDS,
        sentence: 3,
        pivots: Pivots::Enough,
        told: Told::Inconsistent,
    },
    Row {
        text: THIRDS,
        sentence: 9,
        pivots: Pivots::Enough,
        told: Told::Inconsistent,
    },
    Row {
        text: THIRDS,
        sentence: 1,
        pivots: Pivots::None,
        told: Told::Open,
    },
    Row {
        text: TWICE,
        sentence: 1,
        pivots: Pivots::Enough,
        told: Told::Inconsistent,
    },
    Row {
        text: THREE,
        sentence: 1,
        pivots: Pivots::Enough,
        told: Told::Consistent,
    },
    Row {
        text: THREE,
        sentence: 2,
        pivots: Pivots::Enough,
        told: Told::Inconsistent,
    },
];

fn limits_with(pivots: Pivots) -> Limits
    ensures { AreLimits result }
{
    match pivots {
        Pivots::Enough => LIMITS,
        Pivots::None => NO_PIVOTS,
    }
}

fn told_by(verdict: &Verdict) -> Told {
    match verdict {
        Verdict::Consistent(_) => Told::Consistent,
        Verdict::Inconsistent(_) => Told::Inconsistent,
        Verdict::Open(_) => Told::Open,
    }
}

// What is told of the rest of a row, by a lawful run.
fn told_of(alloc: Global, problem: &Problem, row: &Row) -> Option<Told> {
    let kind = Kind::Nothing;
    let mut guesser = Fixed { alloc, kind };
    let limits = limits_with(row.pivots);
    let verdict = verdict_without(alloc, problem, limits, row.sentence, &mut guesser).ok()?;
    Some(told_by(&verdict))
}

// Whether it is told as in the row.
fn is_told(alloc: Global, row: &Row) -> Option<bool> {
    Some(told_of(alloc, &problem_of(alloc, row.text)?, row)? == row.told)
}

#[test]
fn rests_are_told(rt: HostRuntime) {
    for row in &RESTS {
        assert!(rt; is_told(rt.alloc(), row) == Some(true));
    }
}
