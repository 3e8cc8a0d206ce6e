//! The numbers of kept sentences.
ghost use Rattle.std.specs.Prelude.{◌<◌, ◌≡◌, ◌+◌, ◌^◌, ◌++◌, ◌∷◌, [], false, get_or, map, suc, IfOk, OnOk};
ghost use Rattle.ps_runs.specs.Kept.{IsChoice};
ghost use Rattle.ps_explain.specs.Explanations.{numbers_of, places_from};

use crate::explained::Numbers;
use ps_io::{List, NoMemory};
use ps_problem::Problem;
use std::alloc::Global;

/// Whether the sentence at a place is kept.
pub(crate) fn is_kept(kept: &[bool], place: usize) -> bool
    ensures { result ≡ get_or kept.now place false }
{
    place < kept.len() && kept[place]
}

/// Adds the number of the sentence at a place, if it is kept.
fn push_number(numbers: &mut Numbers, kept: bool, place: usize) -> Result<(), NoMemory>
    requires { place + 1 < 2 ^ 32 }
    ensures { OnOk result
        (numbers.new ≡ numbers.old ++ map suc (places_from place (kept ∷ []))) }
{
    if kept {
        numbers.push(place as u32 + 1)
    } else {
        Ok(())
    }
}

/// The numbers of the kept sentences, from 1.
#[tactic(auto, using(crate::proofs::Parts::few_sentences))]
pub(crate) fn numbers_of(
    alloc: Global,
    problem: &Problem,
    kept: &[bool],
) -> Result<Numbers, NoMemory>
    requires { IsChoice kept.now problem.now }
    ensures { IfOk result (λ numbers. numbers ≡ numbers_of kept.now) }
{
    // Called for its clauses: the problem is within the limits.
    let _sound = problem.rows();
    let mut numbers = List::new(alloc);
    for place in 0..kept.len() {
        push_number(&mut numbers, kept[place], place)?;
    }
    Ok(numbers)
}
