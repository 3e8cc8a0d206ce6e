//! Explanations of small problems.
ghost use Rattle.std.specs.Prelude.{IfOk, IfSome};
ghost use Rattle.ps_generation.specs.Phases.{AreLimits};
ghost use Rattle.ps_runs.specs.Kept.{IsChoice};
ghost use Rattle.ps_explain.specs.Texts.{HasShortLines};
ghost use Rattle.ps_generation.specs.Runs.{IsAtStart};

use crate::problems::{LIMITS, problem_of};
use ps_answer::{Dual, Model, Weighted};
use ps_claims::ClaimKind;
use ps_explain::{Explained, Limits, explain, write_explanation};
use ps_formula::World;
use ps_generation::{First, Run};
use ps_guesser::{Guess, Guesser, Progress};
use ps_io::{Lines, List, MemSink, NoMemory};
use ps_problem::{Problem, Query};
use std::alloc::Global;
use std::test::*;

mod rests;

const NO_PIVOTS: Limits = Limits {
    pivots: 0,
    conflicts: 1000,
};

const THIRDS: &[u8] = b"psat 1; P(a) = 1/3; P(a) = 2/3; P(b) = 1/2; end;";

const CHAINED: &[u8] = b"psat 1; P(a) = 7/10; P(a -> b) = 9/10; query P(b); end;";

/// Problems whose sentences can't be met together.
const INCONSISTENT: [&[u8]; 20] = [
    THIRDS,
    b"psat 1; P(a) >= 3/4; P(b) >= 3/4; P(a & b) <= 1/4; end;",
    b"psat 1; P(a) = 1; P(a -> b) = 1; P(b) <= 1/2; P(c) = 1/2; end;",
    b"psat 1; P(a) >= 1/2; P(a) <= 1/4; P(a) <= 1/3; end;",
    b"psat 1; P(a | b) <= 1/4; P(a) >= 1/2; P(b) >= 1/2; end;",
    b"psat 1; P(a given b) = 1/2; P(b) = 1; P(a) <= 1/3; end;",
    b"psat 1; P(a) in [1/4, 1/2]; P(a) >= 3/4; P(a & b) = 1/8; end;",
    b"psat 1; P(a & !a) >= 1/10; P(a) = 1/2; end;",
    b"psat 1; P(a) >= 2/3; P(b) >= 2/3; P(c) >= 2/3; P(!(a & b)) >= 9/10; end;",
    b"psat 1; P(a -> b) = 1; P(b -> c) = 1; P(c -> d) = 1; P(a) >= 1/2; P(d) <= 1/4; end;",
    b"psat 1; P(a) = 1/2; P(b) = 1/2; P(a <-> b) = 1; P(a & b) <= 1/3; end;",
    b"psat 1; P(a given b) >= 3/4; P(!a given b) >= 1/2; P(b) >= 1/10; end;",
    b"psat 1; P(c) = 1; P(a given b) >= 3/4; P(a given b) <= 1/4; P(b) >= 1/2; end;",
    b"psat 1; P(a) <= 1/3; P(b) <= 1/3; P(a | b) = 1; end;",
    b"psat 1; P(a) in [1/2, 3/4]; P(b) in [1/2, 3/4]; P(a & b) = 0; P(a | b) <= 9/10; end;",
    b"psat 1; P(a) = 0; P(!a) = 0; end;",
    b"psat 1; P(a | b | c) = 1; P(a) <= 1/4; P(b) <= 1/4; P(c) <= 1/4; P(d) = 1/2; end;",
    b"psat 1; P(a & b) >= 1/2; P(a & !b) >= 1/2; P(!a) >= 1/10; end;",
    b"psat 1; P(a) >= 1/2; P(a & b) <= 1/8; P(a & !b) <= 1/8; P(b) = 1/3; end;",
    b"psat 1; P(a) = 1/10; P(b) = 1/5; P(a & b) = 3/10; P(c given a) = 1/2; end;",
];

/// What is guessed.
#[derive(Clone, Copy, Drop)]
enum Kind {
    Nothing,
    /// Each atom is certain, and each multiplier is 1.
    Wrong,
    /// That the first bound with its multiplier -1 and the second with 1 contradict one another.
    Pair,
}

#[derive(Drop)]
struct Fixed {
    alloc: Global,
    kind: Kind,
}

fn certain(alloc: Global, atoms: u16) -> Result<Model, NoMemory> {
    let mut world = World::new(alloc);
    for _ in 0..atoms {
        world.push(true)?;
    }
    let mut worlds = List::new(alloc);
    worlds.push(Weighted { weight: 1, world })?;
    Ok(Model { total: 1, worlds })
}

// The multiplier of the bound at a place.
fn multiplier(kind: Kind, place: u32) -> i128 {
    match (kind, place) {
        (Kind::Pair, 0) => -1,
        (Kind::Pair, 1) => 1,
        (Kind::Pair, _) => 0,
        _ => 1,
    }
}

fn dual(alloc: Global, kind: Kind, bounds: u32) -> Result<Dual, NoMemory> {
    let mut rows = List::new(alloc);
    for place in 0..bounds {
        rows.push(multiplier(kind, place))?;
    }
    Ok(Dual {
        top: 0,
        head: 1,
        rows,
        steps: List::new(alloc),
    })
}

impl Guesser for Fixed {
    fn keep(&mut self, _problem: &Problem, _kept: &[bool]) -> Result<(), NoMemory> {
        Ok(())
    }

    fn model(&mut self, problem: &Problem) -> Result<Option<Model>, NoMemory> {
        match self.kind {
            Kind::Wrong => Ok(Some(certain(self.alloc, problem.atoms())?)),
            _ => Ok(None),
        }
    }

    fn nothing(
        &mut self,
        problem: &Problem,
        _query: Option<Query>,
    ) -> Result<Option<Dual>, NoMemory> {
        match self.kind {
            Kind::Nothing => Ok(None),
            kind => Ok(Some(dual(self.alloc, kind, problem.bounds())?)),
        }
    }

    fn bound(
        &mut self,
        _problem: &Problem,
        _kind: ClaimKind,
        _query: Query,
    ) -> Result<Option<Guess>, NoMemory> {
        Ok(None)
    }

    fn add(&mut self, _world: World) -> Result<(), NoMemory> {
        self.kind = Kind::Nothing;
        Ok(())
    }

    fn progress(&self) -> Option<Progress> {
        None
    }
}

fn explained(alloc: Global, problem: &Problem, limits: Limits, kind: Kind) -> Option<Explained>
    requires limits { AreLimits limits }
    ensures short { IfSome result HasShortLines }
{
    let mut guesser = Fixed { alloc, kind };
    explain(alloc, problem, limits, &mut guesser).ok()
}

// The sentences of a set, by the binary digits of its number, the first one's last.
fn chosen(alloc: Global, problem: &Problem, set: u32) -> Result<List<bool>, NoMemory>
    ensures { IfOk result (λ kept. IsChoice kept problem.now) }
{
    let mut kept = List::new(alloc);
    let mut rest = set;
    for _ in 0..problem.sentences().len() {
        kept.push(rest % 2 == 1)?;
        rest /= 2;
    }
    Ok(kept)
}

// Whether a run at its start reaches a distribution.
fn reaches(run: &mut Run<'_>) -> Option<bool>
    requires { IsAtStart run.old }
{
    match run.phase_one().ok()? {
        First::Reached(_) => Some(true),
        First::Nothing(_) => Some(false),
        First::Open(_) => None,
    }
}

// Whether the kept sentences can be met together, by a run.
fn can_be_met(alloc: Global, problem: &Problem, kept: &[bool]) -> Option<bool>
    requires kept { IsChoice kept.now problem.now }
{
    let mut run = Run::new(alloc, problem, kept, None, LIMITS).ok()?;
    reaches(&mut run)
}

fn holds(numbers: &[u32], number: u32) -> bool {
    numbers.iter().any(|n| *n == number)
}

// How many of the kept sentences are among these numbers, and how many aren't.
fn counts(kept: &[bool], numbers: &[u32]) -> (u32, u32) {
    let mut inside = 0u32;
    let mut outside = 0u32;
    let mut number = 1u32;
    for keeps in kept {
        if *keeps && holds(numbers, number) {
            inside = inside.saturating_add(1);
        }
        if *keeps && !holds(numbers, number) {
            outside = outside.saturating_add(1);
        }
        number = number.saturating_add(1);
    }
    (inside, outside)
}

// Whether a set of sentences can't be met together if it is that of these numbers, and can if it is
// a smaller one; any other may do as it likes.
fn fits(alloc: Global, problem: &Problem, numbers: &[u32], set: u32) -> Option<bool> {
    let kept = chosen(alloc, problem, set).ok()?;
    let (inside, outside) = counts(kept.as_slice(), numbers);
    if outside > 0 {
        return Some(true);
    }
    let whole = inside as usize == numbers.len();
    Some(can_be_met(alloc, problem, kept.as_slice())? != whole)
}

// Whether the sentences of these numbers, of five at most, can't be met together, but those of each
// smaller set can.
fn is_minimal(alloc: Global, problem: &Problem, numbers: &[u32]) -> bool {
    for set in 0..32 {
        if fits(alloc, problem, numbers, set) != Some(true) {
            return false;
        }
    }
    true
}

fn is_minimal_core(alloc: Global, problem: &Problem, explanation: &Explained) -> bool {
    match explanation {
        Explained::Core { sentences, .. } => is_minimal(alloc, problem, sentences.as_slice()),
        _ => false,
    }
}

fn is_explained(alloc: Global, problem: &Problem, kind: Kind) -> Option<bool> {
    let explanation = explained(alloc, problem, LIMITS, kind)?;
    Some(is_minimal_core(alloc, problem, &explanation))
}

fn has_minimal_core(alloc: Global, text: &[u8], kind: Kind) -> Option<bool> {
    is_explained(alloc, &problem_of(alloc, text)?, kind)
}

fn have_minimal_cores(alloc: Global, kind: Kind) -> bool {
    for text in &INCONSISTENT {
        if has_minimal_core(alloc, text, kind) != Some(true) {
            return false;
        }
    }
    true
}

// Writes an explanation.
fn write(alloc: Global, explanation: &Explained, sink: &mut MemSink) -> Option<()>
    requires { HasShortLines explanation.now }
{
    let mut lines = Lines::new(alloc, sink).ok()?;
    write_explanation(explanation, &mut lines).ok()
}

// Whether the text of an explanation begins so.
fn is_begun(alloc: Global, explanation: &Explained, start: &[u8]) -> Option<bool>
    requires { HasShortLines explanation.now }
{
    let mut sink = MemSink::new(alloc, 64, Vec::new(alloc), 2000).ok()?;
    write(alloc, explanation, &mut sink)?;
    Some(sink.bytes().get(..start.len()) == Some(start))
}

// Whether that of a problem does.
fn begins_for(
    alloc: Global,
    problem: &Problem,
    limits: Limits,
    kind: Kind,
    start: &[u8],
) -> Option<bool>
    requires limits { AreLimits limits }
{
    let explanation = explained(alloc, problem, limits, kind)?;
    is_begun(alloc, &explanation, start)
}

fn begins(alloc: Global, text: &[u8], limits: Limits, kind: Kind, start: &[u8]) -> Option<bool>
    requires limits { AreLimits limits }
{
    begins_for(alloc, &problem_of(alloc, text)?, limits, kind, start)
}

const CORE: &[u8] = b"explanation 1\ncore 2 1 2\ndual 0 1 1\ny -1 1 0\ns 2 0 1 0\nwithout 1\n";

const OPEN: &[u8] = b"explanation 1\nopen pivots 0\nsentences 3 1 2 3\n";

#[test]
fn cores_are_minimal(rt: HostRuntime) {
    assert!(rt; have_minimal_cores(rt.alloc(), Kind::Nothing));
    assert!(rt; have_minimal_cores(rt.alloc(), Kind::Wrong));
}

const MET: &[u8] = b"explanation 1\nconsistent\nmodel ";

// Whether each explanation begins with its text.
fn are_written(alloc: Global) -> bool {
    begins(alloc, THIRDS, LIMITS, Kind::Pair, CORE) == Some(true)
        && begins(alloc, THIRDS, LIMITS, Kind::Nothing, CORE) == Some(true)
        && begins(alloc, THIRDS, NO_PIVOTS, Kind::Nothing, OPEN) == Some(true)
        && begins(alloc, CHAINED, LIMITS, Kind::Wrong, MET) == Some(true)
}

#[test]
fn explanations_are_written(rt: HostRuntime) {
    assert!(rt; are_written(rt.alloc()));
}
