//! Answers to one query, of which some sides are guessed, and runs that are begun again while time is
//! left.
ghost use Rattle.std.specs.Prelude.{◌<◌, false};

use crate::problems::{LIMITS, problem_of};
use ps_answer::{Answer, Dual, Model, QueryAnswer, QueryPart, SideAnswer, Verdict, Weighted};
use ps_claims::ClaimKind;
use ps_formula::World;
use ps_guess::{
    Guess, Guesser, InTime, Known, Limits, MOST_TURNS, Pending, Progress, Trials, Watch, Work,
    answer, run_turn, verdict_in_time,
};
use ps_io::{List, NoMemory};
use ps_problem::{Problem, Query};
use std::alloc::Global;
use std::test::*;

const ASKED: &[u8] = b"psat 1; P(a) >= 1/3; query P(a); end;";

// No pivot, and more conflicts than the turns before the last one come to.
const NO_PIVOTS: Limits = Limits {
    pivots: 0,
    conflicts: 5_000_000,
};

/// Whether a distribution is guessed, and which sides are. The first guess of the lower one overlooks
/// a world.
#[derive(Drop)]
struct Fixed {
    alloc: Global,
    model: bool,
    lower: bool,
    upper: bool,
    told: bool,
}

fn weighted(alloc: Global, weight: i128, value: bool) -> Result<Weighted, NoMemory> {
    let mut world = World::new(alloc);
    world.push(value)?;
    Ok(Weighted { weight, world })
}

// The distribution that gives the atom a third.
fn third(alloc: Global) -> Result<Model, NoMemory> {
    let mut worlds = List::new(alloc);
    worlds.push(weighted(alloc, 1, true)?)?;
    worlds.push(weighted(alloc, 2, false)?)?;
    Ok(Model { total: 3, worlds })
}

// The distribution in which the atom is certain.
fn certain(alloc: Global) -> Result<Model, NoMemory> {
    let mut worlds = List::new(alloc);
    worlds.push(weighted(alloc, 1, true)?)?;
    Ok(Model { total: 1, worlds })
}

fn dual(alloc: Global, top: i128, head: i128, multiplier: i128) -> Result<Dual, NoMemory> {
    let mut rows = List::new(alloc);
    rows.push(multiplier)?;
    Ok(Dual {
        top,
        head,
        rows,
        steps: List::new(alloc),
    })
}

impl Guesser for Fixed {
    fn keep(&mut self, _problem: &Problem, _kept: &[bool]) -> Result<(), NoMemory> {
        Ok(())
    }

    fn model(&mut self, _problem: &Problem) -> Result<Option<Model>, NoMemory> {
        if !self.model {
            return Ok(None);
        }
        Ok(Some(third(self.alloc)?))
    }

    fn nothing(
        &mut self,
        _problem: &Problem,
        _query: Option<Query>,
    ) -> Result<Option<Dual>, NoMemory> {
        Ok(None)
    }

    fn bound(
        &mut self,
        _problem: &Problem,
        kind: ClaimKind,
        _query: Query,
    ) -> Result<Option<Guess>, NoMemory> {
        match kind {
            ClaimKind::Lower if self.lower => Ok(Some(Guess {
                model: third(self.alloc)?,
                dual: dual(self.alloc, 3, 1, if self.told { 1 } else { 2 })?,
            })),
            ClaimKind::Upper if self.upper => Ok(Some(Guess {
                model: certain(self.alloc)?,
                dual: dual(self.alloc, 1, 1, 0)?,
            })),
            _ => Ok(None),
        }
    }

    fn add(&mut self, _world: World) -> Result<(), NoMemory> {
        self.told = true;
        Ok(())
    }

    fn progress(&self) -> Option<Progress> {
        None
    }
}

fn is_value(side: &SideAnswer, numerator: i128, denominator: i128) -> bool {
    match side {
        SideAnswer::Bound { value, .. } => {
            value.numerator() == numerator && value.denominator() == denominator
        }
        SideAnswer::Open(_) => false,
    }
}

// Whether the part's sides are a third and 1, and those that were guessed have no events.
fn is_right(part: &QueryPart, lower_guessed: bool, upper_guessed: bool) -> bool {
    match &part.answer {
        QueryAnswer::Bounds {
            lower,
            lower_trace,
            upper,
            upper_trace,
        } => {
            is_value(lower, 1, 3)
                && is_value(upper, 1, 1)
                && (!lower_guessed || lower_trace.len() == 0)
                && (!upper_guessed || upper_trace.len() == 0)
        }
        _ => false,
    }
}

fn answered(alloc: Global, lower: bool, upper: bool) -> Option<Answer> {
    let problem = problem_of(alloc, ASKED)?;
    let mut guesser = Fixed {
        alloc,
        model: true,
        lower,
        upper,
        told: false,
    };
    answer(alloc, &problem, LIMITS, &mut guesser).ok()
}

fn has_sides(answer: &Answer, lower: bool, upper: bool) -> bool {
    match (&answer.verdict, answer.parts.as_slice().first()) {
        (Verdict::Consistent(_), Some(part)) => is_right(part, lower, upper),
        _ => false,
    }
}

fn is_answered(alloc: Global, lower: bool, upper: bool) -> bool {
    match answered(alloc, lower, upper) {
        Some(answer) => has_sides(&answer, lower, upper),
        None => false,
    }
}

const GUESSED: [(bool, bool); 4] = [(true, true), (true, false), (false, true), (false, false)];

#[test]
fn sides_are_guessed_or_run(rt: HostRuntime) {
    for (lower, upper) in GUESSED {
        assert!(rt; is_answered(rt.alloc(), lower, upper));
    }
}

// By this time is never over.
#[derive(Drop)]
struct Endless;

impl Watch for Endless {
    ghost has_refused = { λ _. false };

    fn is_over(&mut self) -> bool {
        false
    }

    fn has_room(&mut self, _: Work, _: u32) -> bool {
        true
    }

    fn tell(&mut self, _: ClaimKind, _: Progress) {}
}

fn is_open(known: &Known) -> bool {
    match known {
        Known::Answered(part) => matches!(part.answer, QueryAnswer::Open(_)),
        Known::Sides { .. } => false,
    }
}

// Whether the verdict is told as open, where a run has no pivot.
fn is_verdict_open(
    alloc: Global,
    trials: &Trials<'_>,
    timed: &mut InTime<'_, Fixed, Endless>,
) -> Result<bool, NoMemory> {
    match verdict_in_time(alloc, trials, NO_PIVOTS, timed)? {
        Some((verdict, _)) => Ok(matches!(verdict, Verdict::Open(_))),
        None => Ok(false),
    }
}

// Whether the answer to each query is.
fn are_parts_open(alloc: Global, trials: &Trials<'_>) -> Result<bool, NoMemory> {
    for query in trials.problem().queries().as_slice() {
        let pending = run_turn(
            alloc,
            trials,
            *query,
            NO_PIVOTS,
            MOST_TURNS - 1,
            Pending::new(),
        )?;
        if !is_open(&pending.known) {
            return Ok(false);
        }
    }
    Ok(true)
}

// Whether both are, where nothing is guessed.
fn is_told_as_open(alloc: Global, trials: &Trials<'_>) -> Result<bool, NoMemory> {
    let mut guesser = Fixed {
        alloc,
        model: false,
        lower: false,
        upper: false,
        told: false,
    };
    let mut watch = Endless;
    let mut timed = InTime::new(&mut guesser, &mut watch);
    Ok(is_verdict_open(alloc, trials, &mut timed)? && are_parts_open(alloc, trials)?)
}

fn ends_open(alloc: Global) -> Option<bool> {
    let problem = problem_of(alloc, ASKED)?;
    let trials = Trials::new(alloc, &problem, NO_PIVOTS.conflicts).ok()?;
    is_told_as_open(alloc, &trials).ok()
}

#[test]
fn the_last_turn_has_the_greatest_limits(rt: HostRuntime) {
    assert!(rt; ends_open(rt.alloc()) == Some(true));
}
