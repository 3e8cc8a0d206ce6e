//! Bounds that are known. Engines guess them; here they are only compared.
use crate::problems::problem_of;
use ps_claims::ClaimKind;
use ps_engine::{Engine, Guess, Guesser};
use ps_io::NoMemory;
use ps_problem::{Problem, Query};
use std::alloc::Global;
use std::test::*;

/// A sentence and an implication: from their sum less 1, to the implication (N. J. Nilsson,
/// "Probabilistic logic", 1986).
const IMPLIED: &[u8] = b"psat 1; P(a) = 7/10; P(a -> b) = 9/10; query P(b); end;";

/// The evidence divides: from (1/2 + 3/4 - 1) / (3/4), to (1/2) / (3/4).
const DIVIDED: &[u8] = b"psat 1; P(a) = 1/2; P(b) = 3/4; query P(a given b); end;";

/// A certainty, and a sentence that it bounds.
const CERTAIN: &[u8] = b"psat 1; P(a -> b) = 1; P(a) >= 1/3; query P(b); end;";

/// One is more probable than the other by a half.
const COMPARED: &[u8] = b"psat 2; P(a) - P(b) >= 1/2; query P(b); end;";

/// A multiple less a part of another.
const WEIGHTED: &[u8] = b"psat 2; 2 P(a) - 1/3 P(b) >= 1/2; query P(a); end;";

/// Two of three on average, and never all: some of them always.
const COUNTED: &[u8] =
    b"psat 2; P(a) + P(b) + P(c) = 2; P(a & b & c) = 0; query P(a | b | c); end;";

/// Three that exclude each other in their order: the last one has a third at most.
const RANKED: &[u8] = b"psat 2; P(a & b | a & c | b & c) = 0; P(a) - P(b) >= 0; P(b) - P(c) >= 0; \
                        query P(c); end;";

/// How often a guess pauses at most.
const MOST_PAUSES: u32 = 100;

// Whether a guess is of this value.
fn is(guess: Option<Guess>, over: i128, under: i128) -> bool {
    match guess {
        None => false,
        Some(Guess { model: _, dual }) => {
            0 < dual.top && dual.head.wrapping_mul(under) == dual.top.wrapping_mul(over)
        }
    }
}

// The guess of a side, after so many pauses at most.
fn side(
    engine: &mut Engine,
    problem: &Problem,
    kind: ClaimKind,
    query: Query,
) -> Result<Option<Guess>, NoMemory> {
    for _ in 0..MOST_PAUSES {
        let guess = engine.bound(problem, kind, query)?;
        if engine.progress().is_none() {
            return Ok(guess);
        }
    }
    Ok(None)
}

// Whether the sides of a query are so.
fn are_sides(
    engine: &mut Engine,
    problem: &Problem,
    query: Query,
    low: [i128; 2],
    high: [i128; 2],
) -> Result<bool, NoMemory> {
    let least = side(engine, problem, ClaimKind::Lower, query)?;
    let greatest = side(engine, problem, ClaimKind::Upper, query)?;
    Ok(is(least, low[0], low[1]) && is(greatest, high[0], high[1]))
}

// Whether they are, by an engine that pauses after so many rounds.
fn are(
    alloc: Global,
    problem: &Problem,
    query: Query,
    rounds: u32,
    low: [i128; 2],
    high: [i128; 2],
) -> Result<bool, NoMemory> {
    let mut engine = Engine::new(alloc, problem)?;
    engine.pause_every(rounds);
    are_sides(&mut engine, problem, query, low, high)
}

// Whether those of the first query are, with pauses and without.
fn are_steady(alloc: Global, problem: &Problem, low: [i128; 2], high: [i128; 2]) -> Option<bool> {
    let query = *problem.queries().get(0)?;
    let steady = are(alloc, problem, query, u32::MAX, low, high).ok()?;
    let paused = are(alloc, problem, query, 1, low, high).ok()?;
    Some(steady && paused)
}

fn sides(alloc: Global, text: &[u8], low: [i128; 2], high: [i128; 2]) -> Option<bool> {
    are_steady(alloc, &problem_of(alloc, text)?, low, high)
}

// Whether a guess of the lower side pauses before it has its first world.
fn has_paused(engine: &mut Engine, problem: &Problem, query: Query) -> Option<bool> {
    let guess = engine.bound(problem, ClaimKind::Lower, query).ok()?;
    Some(guess.is_none() && engine.progress()?.worlds > 0)
}

// Whether that of the first query does.
fn pauses_at_once(alloc: Global, problem: &Problem) -> Option<bool> {
    let query = *problem.queries().get(0)?;
    let mut engine = Engine::new(alloc, problem).ok()?;
    engine.pause_every(1);
    has_paused(&mut engine, problem, query)
}

fn pauses(alloc: Global, text: &[u8]) -> Option<bool> {
    pauses_at_once(alloc, &problem_of(alloc, text)?)
}

#[test]
fn a_guess_pauses_and_goes_on(rt: HostRuntime) -> Result<(), Fail> {
    let alloc = rt.alloc();
    assert_eq!(rt; pauses(alloc, DIVIDED), Some(true));
    Ok(())
}

#[test]
fn sides_are_guessed(rt: HostRuntime) -> Result<(), Fail> {
    let alloc = rt.alloc();
    let implied = sides(alloc, IMPLIED, [3, 5], [9, 10]);
    assert_eq!(rt; implied, Some(true));
    let divided = sides(alloc, DIVIDED, [1, 3], [2, 3]);
    assert_eq!(rt; divided, Some(true));
    let certain = sides(alloc, CERTAIN, [1, 3], [1, 1]);
    assert_eq!(rt; certain, Some(true));
    Ok(())
}

#[test]
fn sides_over_sums_are_guessed(rt: HostRuntime) -> Result<(), Fail> {
    let alloc = rt.alloc();
    let compared = sides(alloc, COMPARED, [0, 1], [1, 2]);
    assert_eq!(rt; compared, Some(true));
    let weighted = sides(alloc, WEIGHTED, [1, 4], [1, 1]);
    assert_eq!(rt; weighted, Some(true));
    let counted = sides(alloc, COUNTED, [1, 1], [1, 1]);
    assert_eq!(rt; counted, Some(true));
    let ranked = sides(alloc, RANKED, [0, 1], [1, 3]);
    assert_eq!(rt; ranked, Some(true));
    Ok(())
}
