//! What is told of bounds, as members of their objects.
ghost use Rattle.std.specs.Prelude.{◌≡◌};
ghost use Rattle.ps_spoken.specs.Numbers.{Puts};
ghost use Rattle.ps_spoken.specs.JsonDetails.{atom_item, atom_items, beneath_members, end_member};
ghost use Rattle.ps_spoken.specs.JsonDetails.{example_member, example_members, likely_item};
ghost use Rattle.ps_spoken.specs.JsonDetails.{likely_items, moved_by, moved_member, rate_member};
ghost use Rattle.ps_spoken.specs.JsonDetails.{rests_on, support_items, support_members};
ghost use Rattle.ps_spoken.specs.JsonDetails.{supporting_item, where_members};

use crate::clash::write_sentence;
use crate::details::SideDetails;
use crate::examples::write_atom;
use crate::listing::write_comma;
use crate::numbers::{append, fraction, number};
use ps_frac::Fraction;
use ps_io::NoMemory;
use ps_problem::Problem;
use ps_support::{End, Example, Likely, Support, Supporting};
use std::alloc::Global;

/// Writes the number of a sentence, its line and its text, as members of an object that begins here.
#[tactic(auto, unfolding(crate::specs::JsonDetails::where_members))]
pub(crate) fn write_where(
    alloc: Global,
    out: &mut Vec<u8>,
    problem: &Problem,
    sentence: u32,
    line: u32,
) -> Result<(), NoMemory>
    ensures { Puts result out.old out.new
        (where_members problem.now sentence line) }
{
    append(out, b"{\"number\":")?;
    number(out, i128::from(sentence))?;
    append(out, b",\"line\":")?;
    number(out, i128::from(line))?;
    append(out, b",\"text\":\"")?;
    write_sentence(alloc, out, problem, sentence)?;
    append(out, b";\"")
}

// The member that tells which number of a sentence a bound rests on.
fn end_member(end: End) -> &'static [u8]
    ensures { result.now ≡ end_member end }
{
    match end {
        End::Only => b",\"end\":null",
        End::Lower => b",\"end\":\"lower\"",
        End::Upper => b",\"end\":\"upper\"",
    }
}

// Writes how far a bound moves where that number rises by a hundredth.
#[tactic(auto, unfolding(crate::specs::JsonDetails::moved_by))]
fn write_moved_by(out: &mut Vec<u8>, by: &Fraction) -> Result<(), NoMemory>
    ensures { Puts result out.old out.new (moved_by by.now) }
{
    append(out, b",\"hundredth\":\"")?;
    fraction(out, by)?;
    append(out, b"\"}")
}

// The same where that is known.
fn write_moved(out: &mut Vec<u8>, hundredth: &Option<Fraction>) -> Result<(), NoMemory>
    ensures { Puts result out.old out.new (moved_member hundredth.now) }
{
    match hundredth {
        Some(by) => write_moved_by(out, by),
        None => append(out, b",\"hundredth\":null}"),
    }
}

// Writes how fast it moves.
#[tactic(auto, unfolding(crate::specs::JsonDetails::rate_member))]
fn write_rate(out: &mut Vec<u8>, rate: &Fraction) -> Result<(), NoMemory>
    ensures { Puts result out.old out.new (rate_member rate.now) }
{
    append(out, b",\"multiplier\":\"")?;
    fraction(out, rate)?;
    append(out, b"\"")
}

// Writes a sentence on which a bound rests, and a comma before it but before the first.
#[tactic(auto, unfolding(crate::specs::JsonDetails::supporting_item))]
fn write_supporting(
    alloc: Global,
    out: &mut Vec<u8>,
    problem: &Problem,
    place: usize,
    it: &Supporting,
) -> Result<(), NoMemory>
    ensures { Puts result out.old out.new (supporting_item problem.now place it.now) }
{
    write_comma(out, place)?;
    write_where(alloc, out, problem, it.sentence, it.line)?;
    append(out, end_member(it.end))?;
    write_rate(out, &it.rate)?;
    write_moved(out, &it.hundredth)
}

// Writes the sentences on which a bound rests.
fn write_all_supporting(
    alloc: Global,
    out: &mut Vec<u8>,
    problem: &Problem,
    all: &[Supporting],
) -> Result<(), NoMemory>
    ensures { Puts result out.old out.new (support_items problem.now all.now) }
{
    for place in 0..all.len() {
        write_supporting(alloc, out, problem, place, &all[place])?;
    }
    Ok(())
}

// Writes the member that has them.
#[tactic(auto, unfolding(crate::specs::JsonDetails::rests_on))]
fn write_rests_on(
    alloc: Global,
    out: &mut Vec<u8>,
    problem: &Problem,
    all: &[Supporting],
) -> Result<(), NoMemory>
    ensures { Puts result out.old out.new (rests_on problem.now all.now) }
{
    append(out, b",\"rests_on\":[")?;
    write_all_supporting(alloc, out, problem, all)?;
    append(out, b"]")
}

// The same where they are told.
fn write_support(
    alloc: Global,
    out: &mut Vec<u8>,
    problem: &Problem,
    support: &Option<Support>,
) -> Result<(), NoMemory>
    ensures { Puts result out.old out.new (support_members problem.now support.now) }
{
    match support {
        Some(known) => write_rests_on(alloc, out, problem, known.sentences.as_slice()),
        None => append(out, b""),
    }
}

// Writes the name of an atom, and a comma before it but before the first.
#[tactic(auto, unfolding(crate::specs::JsonDetails::atom_item))]
fn write_atom_item(
    out: &mut Vec<u8>,
    problem: &Problem,
    place: usize,
    atom: usize,
) -> Result<(), NoMemory>
    ensures { Puts result out.old out.new (atom_item problem.now place atom) }
{
    write_comma(out, place)?;
    append(out, b"\"")?;
    write_atom(out, problem, atom)?;
    append(out, b"\"")
}

// Writes the names of atoms.
fn write_atoms(out: &mut Vec<u8>, problem: &Problem, atoms: &[usize]) -> Result<(), NoMemory>
    ensures { Puts result out.old out.new (atom_items problem.now atoms.now) }
{
    for place in 0..atoms.len() {
        write_atom_item(out, problem, place, atoms[place])?;
    }
    Ok(())
}

// Writes a world of a distribution, and a comma before it but before the first.
#[tactic(auto, unfolding(crate::specs::JsonDetails::likely_item))]
fn write_likely(
    out: &mut Vec<u8>,
    problem: &Problem,
    place: usize,
    world: &Likely,
) -> Result<(), NoMemory>
    ensures { Puts result out.old out.new (likely_item problem.now place world.now) }
{
    write_comma(out, place)?;
    append(out, b"{\"probability\":\"")?;
    fraction(out, &world.probability)?;
    append(out, b"\",\"true\":[")?;
    write_atoms(out, problem, world.atoms.as_slice())?;
    append(out, b"]}")
}

// Writes the worlds of a distribution.
fn write_all_likely(out: &mut Vec<u8>, problem: &Problem, worlds: &[Likely]) -> Result<(), NoMemory>
    ensures { Puts result out.old out.new (likely_items problem.now worlds.now) }
{
    for place in 0..worlds.len() {
        write_likely(out, problem, place, &worlds[place])?;
    }
    Ok(())
}

// Writes the member that has them.
#[tactic(auto, unfolding(crate::specs::JsonDetails::example_member))]
fn write_worlds(out: &mut Vec<u8>, problem: &Problem, worlds: &[Likely]) -> Result<(), NoMemory>
    ensures { Puts result out.old out.new (example_member problem.now worlds.now) }
{
    append(out, b",\"example\":[")?;
    write_all_likely(out, problem, worlds)?;
    append(out, b"]")
}

// The same where they are told.
fn write_example(
    out: &mut Vec<u8>,
    problem: &Problem,
    example: &Option<Example>,
) -> Result<(), NoMemory>
    ensures { Puts result out.old out.new (example_members problem.now example.now) }
{
    match example {
        Some(known) => write_worlds(out, problem, known.worlds.as_slice()),
        None => append(out, b""),
    }
}

/// Writes what is told of a bound, behind the members of its object.
#[tactic(auto, unfolding(crate::specs::JsonDetails::beneath_members))]
pub(crate) fn write_beneath(
    alloc: Global,
    out: &mut Vec<u8>,
    problem: &Problem,
    told: &SideDetails,
) -> Result<(), NoMemory>
    ensures { Puts result out.old out.new (beneath_members problem.now told.now) }
{
    write_support(alloc, out, problem, &told.support)?;
    write_example(out, problem, &told.example)
}
