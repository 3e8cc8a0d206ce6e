//! Distributions that were found before.
ghost use Rattle.std.specs.Prelude.{◌≡◌, None, Some, get_or, length, replicate, set, IfOk};

use ps_answer::Model;
use ps_io::{List, NoMemory};
use ps_problem::Problem;
use std::alloc::Global;

/// For each sentence a distribution that met the others that were kept, where one was found. It may
/// have too many worlds where fewer are kept, so it is tried again.
pub(crate) type Met = Vec<Option<Model>>;

/// None for each sentence.
pub(crate) fn none_met(alloc: Global, problem: &Problem) -> Result<Met, NoMemory>
    ensures { IfOk result (λ met. met.items ≡ replicate (length problem.now.sentences) None) }
{
    let mut met = List::new(alloc);
    for _ in 0..problem.sentences().len() {
        met.push(None)?;
    }
    Ok(met.into_vec())
}

/// Notes a distribution at a place.
pub(crate) fn put_met(met: &mut Met, place: usize, model: Model)
    ensures { met.new.items ≡ set met.old.items place (Some model) }
{
    if place < met.len() {
        met[place] = Some(model);
    }
}

/// Takes the distribution at a place, if there is one.
pub(crate) fn take_met(met: &mut Met, place: usize) -> Option<Model>
    ensures taken { result ≡ get_or met.old.items place None }
    ensures rest { met.new.items ≡ set met.old.items place None }
{
    if place < met.len() {
        met[place].take()
    } else {
        None
    }
}
