//! In which worlds a bound is reached.
ghost use Rattle.std.specs.Prelude.{◌≡◌, ◌++◌, ◌∷◌, [], IfOk, OnOk, map, pos, ◌<ℤ◌};
ghost use Rattle.std.specs.List.Sorted.{IsPermutation};
ghost use Rattle.ps_meaning.specs.Wide.{Fits};
ghost use Rattle.ps_support.specs.Examples.{AreWeights, FallByWeight, HasTotal, HasWorlds};
ghost use Rattle.ps_support.specs.Examples.{likely_of, true_from};

use ps_answer::{Model, Weighted};
use ps_formula::World;
use ps_frac::Fraction;
use ps_io::{List, NoMemory};
use std::alloc::Global;
use std::cmp::Reverse;

/// A world of a distribution, by the atoms that are true in it.
#[derive(Drop)]
pub struct Likely {
    /// Its weight.
    pub weight: i128,
    /// Its probability: the weight over the total.
    pub probability: Fraction,
    /// The numbers of the atoms that are true, from 0.
    pub atoms: List<usize>,
}

/// A distribution in which a query has a value: its worlds, the most probable ones first.
#[derive(Drop)]
pub struct Example {
    /// The value.
    pub value: Fraction,
    /// The worlds.
    pub worlds: List<Likely>,
}

// Notes an atom where it is true.
fn push_true(atoms: &mut List<usize>, atom: usize, is_true: bool) -> Result<(), NoMemory>
    ensures { OnOk result (atoms.new ≡ atoms.old ++ true_from atom (is_true ∷ [])) }
{
    if is_true {
        return atoms.push(atom);
    }
    Ok(())
}

// The numbers of the atoms that are true in a world.
#[tactic(auto, using(crate::proofs::Loops::atoms_next, crate::proofs::Loops::atoms_all))]
fn true_atoms(alloc: Global, world: &World) -> Result<List<usize>, NoMemory>
    ensures { IfOk result (λ atoms. atoms ≡ true_from 0 world.now) }
{
    let values = world.as_slice();
    let mut atoms = List::new(alloc);
    for atom in 0..values.len() {
        push_true(&mut atoms, atom, values[atom])?;
    }
    Ok(atoms)
}

// A world of a distribution of this total.
fn likely_in(alloc: Global, total: i128, weighted: &Weighted) -> Result<Likely, NoMemory>
    requires total { pos 0 <ℤ total }
    requires weight { Fits weighted.now.weight }
    ensures { IfOk result (λ it. it ≡ likely_of total weighted.now) }
{
    Ok(Likely {
        weight: weighted.weight,
        probability: Fraction::new(weighted.weight, total),
        atoms: true_atoms(alloc, &weighted.world)?,
    })
}

// Notes a world of a distribution of this total.
fn push_likely(
    alloc: Global,
    worlds: &mut Vec<Likely>,
    total: i128,
    weighted: &Weighted,
) -> Result<(), NoMemory>
    requires total { pos 0 <ℤ total }
    requires weight { Fits weighted.now.weight }
    ensures { OnOk result
        (worlds.new.items ≡ worlds.old.items ++ likely_of total weighted.now ∷ []) }
{
    let likely = likely_in(alloc, total, weighted)?;
    worlds.push(likely)?;
    Ok(())
}

// The worlds of a distribution in their order.
fn all_likely(alloc: Global, model: &Model) -> Result<Vec<Likely>, NoMemory>
    requires total { HasTotal model.now }
    requires weights { AreWeights model.now }
    ensures { IfOk result (λ v. v.items ≡ map (likely_of model.now.total) model.now.worlds) }
{
    let mut worlds = Vec::new(alloc);
    let all = model.worlds.as_slice();
    for weighted in all {
        push_likely(alloc, &mut worlds, model.total, weighted)?;
    }
    Ok(worlds)
}

// The same worlds, those of the greatest weight first.
fn in_order(worlds: Vec<Likely>) -> Result<List<Likely>, NoMemory>
    ensures moved { IfOk result (λ ws. IsPermutation worlds.items ws) }
    ensures order { IfOk result FallByWeight }
{
    let mut sorted = worlds;
    sorted.sort_by_key(|world| Reverse(world.weight))?;
    Ok(List::from_vec(sorted))
}

/// The distribution that reaches a value, its most probable worlds first.
pub fn example_of(alloc: Global, value: &Fraction, model: &Model) -> Result<Example, NoMemory>
    requires total { HasTotal model.now }
    requires weights { AreWeights model.now }
    ensures value { IfOk result (λ e. e.value ≡ value.now) }
    ensures worlds { IfOk result (HasWorlds model.now) }
    ensures order { IfOk result (λ e. FallByWeight e.worlds) }
{
    let all = all_likely(alloc, model)?;
    let worlds = in_order(all)?;
    Ok(Example {
        value: *value,
        worlds,
    })
}
