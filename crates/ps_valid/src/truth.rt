//! The truth of each formula in each world of a model.
ghost use Rattle.std.specs.Prelude.{◌≡◌, ◌*◌, ◌≤ℤ◌, pos, All, IfOk, length, if◌then◌else◌};
ghost use Rattle.ps_meaning.specs.Formula.{Atom};
ghost use Rattle.ps_meaning.specs.Distribution.{weight};
ghost use Rattle.ps_formula.specs.Nodes.{AtomBelow};
ghost use Rattle.ps_claims.specs.Certificates.{entries};
ghost use Rattle.ps_meaning.specs.declared.limits.TheConstants.{PRINTED_LIMIT};
ghost use Rattle.ps_valid.specs.Limits.{AreSmall};
ghost use Rattle.ps_answer.specs.declared.limits.TheConstants.{MOST_ENTRIES};
ghost use Rattle.ps_valid.specs.Valuations.{AreValuations, HaveNode, IsTableOf, valued_entries};

use ps_answer::Weighted;
use ps_formula::{Formulas, eval};
use ps_io::NoMemory;
use std::alloc::Global;

/// The weight of a world, and the truth of each formula in it.
#[derive(Drop)]
pub struct Valuation {
    /// The weight of the world.
    pub weight: i128,
    /// The truth values, by the numbers of the nodes.
    pub values: Vec<bool>,
}

fn share(value: bool, weight: i128) -> i128
    ensures { result ≡ (if value then weight else pos 0) }
{
    if value { weight } else { 0 }
}

/// The weight of the worlds in which the formula of a node is true.
pub fn weight_of(valued: &[Valuation], node: u32) -> i128
    requires valued { AreValuations valued.now }
    requires node { HaveNode valued.now node }
    ensures weight { result ≡ weight (valued_entries valued.now) (Atom node) }
    ensures low { pos 0 ≤ℤ result }
    ensures high { result ≤ℤ pos (MOST_ENTRIES * PRINTED_LIMIT) }
{
    let mut sum = 0;
    for valuation in valued {
        sum += share(valuation.values[node as usize], valuation.weight);
    }
    sum
}

/// A valuation for each world.
pub fn evaluate(
    alloc: Global,
    formulas: &Formulas,
    worlds: &[Weighted],
) -> Result<Vec<Valuation>, NoMemory>
    requires atoms { All (λ w. All (AtomBelow (length w.world)) formulas.now) worlds.now }
    requires small { AreSmall worlds.now }
    ensures table { IfOk result (λ v. IsTableOf formulas.now (entries worlds.now) v.items) }
{
    let mut valued = Vec::new(alloc);
    for w in worlds {
        let values = eval(alloc, formulas, &w.world)?;
        valued.push(Valuation {
            weight: w.weight,
            values,
        })?;
    }
    Ok(valued)
}
