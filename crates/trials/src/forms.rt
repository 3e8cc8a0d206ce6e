//! Forms to search.
ghost use Rattle.std.specs.Prelude.{◌<◌, ◌≤◌, ◌≢◌, All, IsTrue};
ghost use Rattle.ps_pb.specs.declared.limits.TheConstants.{MOST_VARIABLES};
ghost use Rattle.ps_pb.specs.Assignments.{place, AreDifferent};

use crate::draw::Draw;
use ps_clause::ClauseForm;
use ps_io::NoMemory;
use ps_pb::Lit;
use std::alloc::Global;

/// So many clauses a form gets at most.
const MOST_CLAUSES: u32 = 1_000_000;

/// Whether literals are of so many variables.
pub fn are_within(variables: u32, lits: &[Lit]) -> bool
    ensures { IsTrue result → All (λ l. place l < variables) lits.now }
{
    let variables = variables as usize;
    lits.iter().all(|lit| lit.place() < variables)
}

// Whether no literal is of the variable at a place.
fn are_apart(at: usize, lits: &[Lit]) -> bool
    ensures { IsTrue result → All (λ l. place l ≢ at) lits.now }
{
    lits.iter().all(|lit| lit.place() != at)
}

/// Whether no two literals are of one variable.
pub fn are_different(lits: &[Lit]) -> bool
    ensures { IsTrue result → AreDifferent lits.now }
{
    for i in 0..lits.len() {
        if !are_apart(lits[i].place(), &lits[..i]) {
            return false;
        }
    }
    true
}

/// Adds a clause, where its literals are of different variables of the form.
pub fn add(form: &mut ClauseForm, lits: &[Lit]) -> Result<(), NoMemory> {
    if are_within(form.variables(), lits) && are_different(lits) && form.clauses() < MOST_CLAUSES {
        form.add(lits)?;
    }
    Ok(())
}

/// A literal of one of so many variables.
pub fn literal(draw: &mut Draw, variables: u32) -> Lit
    requires some { 0 < variables }
    requires most { variables ≤ MOST_VARIABLES }
{
    let place = draw.below(variables as u64) as usize;
    Lit::of_place(place, draw.coin())
}

/// Clauses of three literals of different variables.
pub fn three_clauses(
    alloc: Global,
    draw: &mut Draw,
    variables: u32,
    clauses: u32,
) -> Result<ClauseForm, NoMemory>
    requires some { 0 < variables }
    requires most { variables ≤ MOST_VARIABLES }
{
    let mut form = ClauseForm::new(alloc, variables);
    for _ in 0..clauses {
        let (a, b, c) = different(draw, variables);
        add(&mut form, &[a, b, c])?;
    }
    Ok(form)
}

/// Three literals, of different variables where a few draws find such.
fn different(draw: &mut Draw, variables: u32) -> (Lit, Lit, Lit)
    requires some { 0 < variables }
    requires most { variables ≤ MOST_VARIABLES }
{
    let a = literal(draw, variables);
    let mut b = literal(draw, variables);
    let mut c = literal(draw, variables);
    for _ in 0..20 {
        if b.place() == a.place() {
            b = literal(draw, variables);
        }
    }
    for _ in 0..20 {
        if c.place() == a.place() || c.place() == b.place() {
            c = literal(draw, variables);
        }
    }
    (a, b, c)
}

/// Six pigeons sit in five holes, no two in one: the variable of a pigeon and a hole says that it
/// sits there.
pub fn pigeons(alloc: Global) -> Result<ClauseForm, NoMemory> {
    let mut form = ClauseForm::new(alloc, 30);
    for pigeon in 0..6u32 {
        some_hole(&mut form, pigeon)?;
    }
    for hole in 0..5u32 {
        for pair in 0..36u32 {
            alone(&mut form, hole, pair / 6, pair % 6)?;
        }
    }
    Ok(form)
}

// The literal that says whether a pigeon sits in a hole.
fn sits(pigeon: u32, hole: u32, is_there: bool) -> Lit
    requires six { pigeon < 6 }
    requires five { hole < 5 }
{
    Lit::of_place((pigeon * 5 + hole) as usize, is_there)
}

// A pigeon sits in one of the holes.
fn some_hole(form: &mut ClauseForm, pigeon: u32) -> Result<(), NoMemory>
    requires { pigeon < 6 }
{
    let lits = [
        sits(pigeon, 0, true),
        sits(pigeon, 1, true),
        sits(pigeon, 2, true),
        sits(pigeon, 3, true),
        sits(pigeon, 4, true),
    ];
    add(form, &lits)
}

// A pigeon and another one don't both sit in a hole, where the other is a later one.
fn alone(form: &mut ClauseForm, hole: u32, pigeon: u32, other: u32) -> Result<(), NoMemory> {
    if hole < 5 && pigeon < other && other < 6 {
        add(form, &[sits(pigeon, hole, false), sits(other, hole, false)])?;
    }
    Ok(())
}
