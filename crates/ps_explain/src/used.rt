//! The sentences whose bounds a dual uses.
ghost use Rattle.std.specs.Prelude.{◌≡◌, ◌<◌, ◌+◌, ◌^◌, IfOk, drop};
ghost use Rattle.ps_explain.specs.Used.{has_other, is_other, is_used, used_of};

use ps_io::{List, NoMemory};
use ps_problem::Sentence;
use std::alloc::Global;

/// Whether a number is another than 0.
fn is_other(number: i128) -> bool
    ensures { result ≡ is_other number }
{
    number != 0
}

/// Whether the number at a place is another than 0. Past the end there is none.
fn is_used(rows: &[i128], place: usize) -> bool
    ensures { result ≡ is_used rows.now place }
{
    place < rows.len() && is_other(rows[place])
}

/// Whether one of the multipliers of so many bounds, from a place on, is another than 0.
#[tactic(auto, using(crate::proofs::Parts::other_first, crate::proofs::Parts::other_found, crate::proofs::Parts::other_passed, crate::proofs::Parts::other_none))]
fn uses(rows: &[i128], place: usize, bounds: usize) -> bool
    requires { place + bounds < 2 ^ 64 }
    ensures { result ≡ has_other bounds (drop place rows.now) }
{
    for at in place..place + bounds {
        if is_used(rows, at) {
            return true;
        }
    }
    false
}

/// The sentences of which a bound has a multiplier other than 0, by a truth value for each.
#[tactic(auto, using(crate::proofs::Parts::used_next))]
pub(crate) fn used_by(
    alloc: Global,
    sentences: &[Sentence],
    rows: &[i128],
) -> Result<List<bool>, NoMemory>
    ensures { IfOk result (λ used. used ≡ used_of sentences.now rows.now) }
{
    let mut used = List::new(alloc);
    let mut place = 0;
    for sentence in sentences {
        let bounds = sentence.bounds() as usize;
        used.push(uses(rows, place, bounds))?;
        place += bounds;
    }
    Ok(used)
}
