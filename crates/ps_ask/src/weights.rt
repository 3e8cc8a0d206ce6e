//! The weights that a distribution gives formulas.
ghost use Rattle.std.specs.Prelude.{◌≡◌, ◌<◌, ◌+ℤ◌, pos, IfOk, IfSome, length, vec_len};
ghost use Rattle.std.specs.Prelude.{if◌then◌else◌};
ghost use Rattle.ps_meaning.specs.Distribution.{total};
ghost use Rattle.ps_claims.specs.Certificates.{entries};
ghost use Rattle.ps_ask.specs.Weights.{truth_of, weight_at, weight_in, weight_under};

use ps_answer::{Model, Weighted};
use ps_formula::{World, eval};
use ps_io::NoMemory;
use ps_problem::Problem;
use std::alloc::Global;

/// The truth of each formula in a world; none where the world has another number of atoms than the
/// problem.
pub(crate) fn truth_in(
    alloc: Global,
    problem: &Problem,
    world: &World,
) -> Result<Option<Vec<bool>>, NoMemory>
    ensures truths { IfOk result
        (λ o. IfSome o (λ v. v.items ≡ truth_of problem.now world.now)) }
    ensures len { IfOk result
        (λ o. IfSome o (λ v. vec_len v ≡ length problem.now.nodes)) }
{
    if world.len() != problem.atoms() as usize {
        return Ok(None);
    }
    Ok(Some(eval(alloc, problem.formulas(), world)?))
}

// A weight where a formula is true, and else nothing.
fn share(is_true: bool, weight: i128) -> i128
    ensures { result ≡ (if is_true then weight else pos 0) }
{
    if is_true { weight } else { 0 }
}

// A sum; none where it is past 128 bits.
fn plus(sum: i128, more: i128) -> Option<i128>
    ensures { IfSome result (λ z. z ≡ sum +ℤ more) }
{
    sum.checked_add(more)
}

// A sum and the weight of a world where the formula of a node is true in it; none where that is past
// 128 bits.
fn with_world(
    alloc: Global,
    problem: &Problem,
    weighted: &Weighted,
    node: u32,
    sum: i128,
) -> Result<Option<i128>, NoMemory>
    requires node { node < length problem.now.nodes }
    ensures { IfOk result
        (λ o. IfSome o (λ z. z ≡ sum +ℤ weight_in problem.now node weighted.now)) }
{
    let Some(values) = truth_in(alloc, problem, &weighted.world)? else {
        return Ok(None);
    };
    Ok(plus(sum, share(values[node as usize], weighted.weight)))
}

/// The weight of the worlds in which the formula of a node is true; none where it is past 128 bits.
pub(crate) fn weight_of(
    alloc: Global,
    problem: &Problem,
    worlds: &[Weighted],
    node: u32,
) -> Result<Option<i128>, NoMemory>
    requires node { node < length problem.now.nodes }
    ensures { IfOk result
        (λ o. IfSome o (λ z. z ≡ weight_at problem.now worlds.now node)) }
{
    let mut sum = 0;
    for weighted in worlds {
        match with_world(alloc, problem, weighted, node, sum)? {
            Some(more) => sum = more,
            None => return Ok(None),
        }
    }
    Ok(Some(sum))
}

/// The weight of the worlds in which evidence is true, and of all where nothing is given; none where
/// it is past 128 bits.
pub(crate) fn weight_given(
    alloc: Global,
    problem: &Problem,
    model: &Model,
    given: Option<u32>,
) -> Result<Option<i128>, NoMemory>
    requires given { IfSome given (λ g. g < length problem.now.nodes) }
    requires total { model.now.total ≡ total (entries model.now.worlds) }
    ensures { IfOk result
        (λ o. IfSome o (λ z. z ≡ weight_under problem.now model.now.worlds given)) }
{
    match given {
        Some(node) => weight_of(alloc, problem, model.worlds.as_slice(), node),
        None => Ok(Some(model.total)),
    }
}
