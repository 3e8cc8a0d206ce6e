//! Random small problems: by guesses they have the answers of lawful runs, whatever the tolerances.
ghost use Rattle.std.specs.Prelude.{◌<◌};

use ps_answer::{Answer, QueryAnswer, QueryPart, SideAnswer, Verdict};
use ps_climb::Draw;
use ps_engine::{Engine, Tolerances};
use ps_guess::Limits;
use ps_io::NoMemory;
use ps_problem::Problem;
use ps_query::solve;
use ps_read::read_whole;
use std::alloc::Global;
use std::test::*;

const ATOMS: [&[u8]; 4] = [b"a", b"b", b"c", b"d"];

const SIGNS: [&[u8]; 2] = [b"", b"!"];

const JOINED: [&[u8]; 4] = [b" | ", b" & ", b" -> ", b" given "];

const SIDES: [&[u8]; 3] = [b") >= ", b") <= ", b") = "];

const VALUES: [&[u8]; 8] = [
    b"0", b"1/10", b"1/3", b"2/5", b"1/2", b"7/10", b"9/10", b"1",
];

/// A text that is drawn by chance.
#[derive(Drop)]
struct Text {
    bytes: Vec<u8>,
    draw: Draw,
}

impl Text {
    fn add(&mut self, word: &[u8]) -> Result<(), NoMemory> {
        for byte in word {
            self.bytes.push(*byte)?;
        }
        Ok(())
    }

    // Adds one of these words.
    fn draw(&mut self, words: &[&[u8]]) -> Result<(), NoMemory> {
        if words.is_empty() {
            return Ok(());
        }
        let place = self.draw.below(words.len() as u64) as usize;
        match words.get(place) {
            Some(word) => self.add(word),
            None => Ok(()),
        }
    }

    // Adds two literals, joined.
    fn event(&mut self) -> Result<(), NoMemory> {
        self.add(b"P(")?;
        self.draw(&SIGNS)?;
        self.draw(&ATOMS)?;
        self.draw(&JOINED)?;
        self.draw(&SIGNS)?;
        self.draw(&ATOMS)
    }

    fn sentence(&mut self) -> Result<(), NoMemory> {
        self.event()?;
        self.draw(&SIDES)?;
        self.draw(&VALUES)?;
        self.add(b";")
    }

    fn query(&mut self) -> Result<(), NoMemory> {
        self.add(b"query ")?;
        self.event()?;
        self.add(b");")
    }
}

// A text of four sentences and two queries.
fn drawn(alloc: Global, seed: u64) -> Result<Vec<u8>, NoMemory> {
    let mut text = Text {
        bytes: Vec::new(alloc),
        draw: Draw::new(seed),
    };
    text.add(b"psat 1;")?;
    for _ in 0..4 {
        text.sentence()?;
    }
    text.query()?;
    text.query()?;
    text.add(b"end;")?;
    Ok(text.bytes)
}

fn problem(alloc: Global, seed: u64) -> Option<Problem> {
    let text = drawn(alloc, seed).ok()?;
    if text.len() > 4096 {
        return None;
    }
    read_whole(alloc, &text).ok()
}

fn same_side(one: &SideAnswer, other: &SideAnswer) -> bool {
    match (one, other) {
        (SideAnswer::Bound { value: x, .. }, SideAnswer::Bound { value: y, .. }) => *x == *y,
        _ => false,
    }
}

fn same_part(one: &QueryPart, other: &QueryPart) -> bool {
    match (&one.answer, &other.answer) {
        (QueryAnswer::Impossible(_), QueryAnswer::Impossible(_)) => true,
        (
            QueryAnswer::Bounds { lower, upper, .. },
            QueryAnswer::Bounds {
                lower: other_lower,
                upper: other_upper,
                ..
            },
        ) => same_side(lower, other_lower) && same_side(upper, other_upper),
        _ => false,
    }
}

fn same_verdict(one: &Verdict, other: &Verdict) -> bool {
    matches!(
        (one, other),
        (Verdict::Consistent(_), Verdict::Consistent(_))
            | (Verdict::Inconsistent(_), Verdict::Inconsistent(_))
    )
}

// Whether nothing is open, and verdicts and bounds are the same.
fn same(one: &Answer, other: &Answer) -> bool {
    let mut parts = one.parts.as_slice().iter().zip(other.parts.as_slice());
    same_verdict(&one.verdict, &other.verdict)
        && one.parts.len() == other.parts.len()
        && parts.all(|(one, other)| same_part(one, other))
}

fn agree(alloc: Global, problem: &Problem, tolerances: Tolerances) -> Result<bool, NoMemory> {
    let limits = Limits {
        pivots: 10_000,
        conflicts: 20_000,
    };
    let mut engine = Engine::with_tolerances(alloc, problem, tolerances)?;
    let guessed = ps_guess::answer(alloc, problem, limits, &mut engine)?;
    let run = solve(alloc, problem, limits)?;
    Ok(same(&guessed, &run))
}

// How many of so many random problems have the same answers.
fn agreeing(alloc: Global, problems: u64, tolerances: Tolerances) -> u64 {
    let mut count: u64 = 0;
    for seed in 0..problems {
        if let Some(problem) = problem(alloc, seed) {
            if agree(alloc, &problem, tolerances).ok() == Some(true) {
                count = count.saturating_add(1);
            }
        }
    }
    count
}

#[test]
fn guesses_agree_with_runs(rt: HostRuntime) -> Result<(), Fail> {
    let alloc = rt.alloc();
    assert_eq!(rt; agreeing(alloc, 300, Tolerances::usual()), 300);
    assert_eq!(rt; agreeing(alloc, 100, Tolerances::all(1e-2)), 100);
    assert_eq!(rt; agreeing(alloc, 100, Tolerances::all(0.3)), 100);
    Ok(())
}
