//! Distributions that reach bounds, for people.
ghost use Rattle.std.specs.Prelude.{◌≡◌, ◌<◌, ◌≤◌};
ghost use Rattle.ps_frac.specs.declared.limits.TheConstants.{MOST_DIGITS};
ghost use Rattle.ps_spoken.specs.Numbers.{Puts};
ghost use Rattle.ps_spoken.specs.Examples.{about_text, and_before, atom_names, atom_text, atoms_text};
ghost use Rattle.ps_spoken.specs.Examples.{example_text, joined_atom, more_text, more_words};
ghost use Rattle.ps_spoken.specs.Examples.{probability_text, some_more, world_before, world_text};
ghost use Rattle.ps_spoken.specs.Examples.{worlds_text, worlds_word};

use crate::numbers::{append, fraction, is_short, low, number};
use crate::supports::write_name;
use ps_frac::Fraction;
use ps_io::NoMemory;
use ps_problem::Problem;
use ps_support::{BoundSide, Example, Likely};

/// So many worlds of a distribution are shown at most.
pub const MOST_WORLDS: usize = 8;

// Writes a decimal in place of a fraction that isn't.
#[tactic(auto, unfolding(crate::specs::Examples::about_text))]
fn write_about(out: &mut Vec<u8>, probability: &Fraction, digits: u32) -> Result<(), NoMemory>
    requires some { 0 < digits }
    requires few { digits ≤ MOST_DIGITS }
    ensures { Puts result out.old out.new (about_text digits probability.now) }
{
    append(out, b"about ")?;
    low(out, probability, digits)
}

// Writes a probability: as a fraction where that is short, and else as a decimal.
fn write_probability(out: &mut Vec<u8>, probability: &Fraction, digits: u32) -> Result<(), NoMemory>
    requires some { 0 < digits }
    requires few { digits ≤ MOST_DIGITS }
    ensures { Puts result out.old out.new (probability_text digits probability.now) }
{
    if is_short(probability) {
        return fraction(out, probability);
    }
    write_about(out, probability, digits)
}

/// Writes the name of an atom; nothing where there is no such atom.
pub(crate) fn write_atom(out: &mut Vec<u8>, problem: &Problem, atom: usize) -> Result<(), NoMemory>
    ensures { Puts result out.old out.new (atom_text problem.now atom) }
{
    if atom >= problem.atoms() as usize {
        return Ok(());
    }
    match problem.name(atom as u16) {
        Some(name) => append(out, name),
        None => Ok(()),
    }
}

// Writes what stands before an atom of these.
fn write_and(out: &mut Vec<u8>, place: usize) -> Result<(), NoMemory>
    ensures { Puts result out.old out.new (and_before place) }
{
    if place == 0 {
        return Ok(());
    }
    append(out, b" and ")
}

// Writes the name of an atom behind others.
#[tactic(auto, unfolding(crate::specs::Examples::joined_atom))]
fn write_joined(
    out: &mut Vec<u8>,
    problem: &Problem,
    place: usize,
    atom: usize,
) -> Result<(), NoMemory>
    ensures { Puts result out.old out.new (joined_atom problem.now place atom) }
{
    write_and(out, place)?;
    write_atom(out, problem, atom)
}

// Writes the names of atoms.
fn write_names(out: &mut Vec<u8>, problem: &Problem, atoms: &[usize]) -> Result<(), NoMemory>
    ensures { Puts result out.old out.new (atom_names problem.now atoms.now) }
{
    for place in 0..atoms.len() {
        write_joined(out, problem, place, atoms[place])?;
    }
    Ok(())
}

// Writes which atoms are true.
fn write_atoms(out: &mut Vec<u8>, problem: &Problem, atoms: &[usize]) -> Result<(), NoMemory>
    ensures { Puts result out.old out.new (atoms_text problem.now atoms.now) }
{
    if atoms.is_empty() {
        return append(out, b"nothing of these");
    }
    write_names(out, problem, atoms)
}

// Writes a world with its probability.
#[tactic(auto, unfolding(crate::specs::Examples::world_text))]
fn write_world(
    out: &mut Vec<u8>,
    problem: &Problem,
    digits: u32,
    place: usize,
    world: &Likely,
) -> Result<(), NoMemory>
    requires some { 0 < digits }
    requires few { digits ≤ MOST_DIGITS }
    ensures { Puts result out.old out.new
        (world_text digits problem.now place world.now) }
{
    write_before(out, place)?;
    write_probability(out, &world.probability, digits)?;
    append(out, b": ")?;
    write_atoms(out, problem, world.atoms.as_slice())
}

// Writes what stands before a world of these.
fn write_before(out: &mut Vec<u8>, place: usize) -> Result<(), NoMemory>
    ensures { Puts result out.old out.new (world_before place) }
{
    if place == 0 {
        return Ok(());
    }
    append(out, b";\n    ")
}

// Writes the first of these worlds.
fn write_worlds(
    out: &mut Vec<u8>,
    problem: &Problem,
    digits: u32,
    worlds: &[Likely],
) -> Result<(), NoMemory>
    requires some { 0 < digits }
    requires few { digits ≤ MOST_DIGITS }
    ensures { Puts result out.old out.new
        (worlds_text digits problem.now worlds.now) }
{
    for place in 0..worlds.len().min(MOST_WORLDS) {
        write_world(out, problem, digits, place, &worlds[place])?;
    }
    Ok(())
}

// The words for so many more worlds.
fn worlds_word(worlds: usize) -> &'static [u8]
    ensures { result.now ≡ worlds_word worlds }
{
    if worlds == 1 {
        return b" more world";
    }
    b" more worlds"
}

// Writes that there are so many more worlds.
#[tactic(auto, unfolding(crate::specs::Examples::some_more))]
fn write_some_more(out: &mut Vec<u8>, worlds: usize) -> Result<(), NoMemory>
    ensures { Puts result out.old out.new (some_more worlds) }
{
    append(out, b";\n    and ")?;
    number(out, worlds as i128)?;
    append(out, worlds_word(worlds))
}

// The same where there are some.
fn write_more_words(out: &mut Vec<u8>, worlds: usize) -> Result<(), NoMemory>
    ensures { Puts result out.old out.new (more_words worlds) }
{
    if worlds == 0 {
        return Ok(());
    }
    write_some_more(out, worlds)
}

// Writes how many worlds there are beyond those that are shown.
fn write_more(out: &mut Vec<u8>, worlds: usize) -> Result<(), NoMemory>
    ensures { Puts result out.old out.new (more_text worlds) }
{
    write_more_words(out, worlds.saturating_sub(MOST_WORLDS))
}

/// Writes a distribution that reaches a bound: its most probable worlds, each with its probability
/// and the atoms that are true in it, and how many there are beyond these.
#[tactic(auto, unfolding(crate::specs::Examples::example_text))]
pub(crate) fn write_example(
    out: &mut Vec<u8>,
    problem: &Problem,
    side: BoundSide,
    example: &Example,
    digits: u32,
) -> Result<(), NoMemory>
    requires some { 0 < digits }
    requires few { digits ≤ MOST_DIGITS }
    ensures { Puts result out.old out.new
        (example_text digits problem.now side example.now) }
{
    let worlds = example.worlds.as_slice();
    write_name(out, side, &example.value)?;
    append(out, b" is reached by ")?;
    write_worlds(out, problem, digits, worlds)?;
    write_more(out, worlds.len())?;
    append(out, b"\n")
}
