//! The entries of a model: their shape, number, weights and total, and that no world stands twice.
ghost use Rattle.std.specs.Prelude.{◌≡◌, ◌≢◌, ◌≤◌, ◌<◌, ◌+◌, ◌↔◌, Any, IsTrue, IsFalse, length};
ghost use Rattle.ps_meaning.specs.Distribution.{total};
ghost use Rattle.ps_problem.specs.declared.limits.TheConstants.{MOST_BOUNDS};
ghost use Rattle.ps_claims.specs.Claims.{HasTotal};
ghost use Rattle.ps_claims.specs.Certificates.{entries, model_of};
ghost use Rattle.ps_valid.specs.Limits.{AreSmall, IsSmallModel};
ghost use Rattle.ps_valid.specs.Tests.{FindsFault, HasAtoms};

use ps_answer::{Model, Weighted};
use ps_claims::Reason;
use ps_formula::World;
use ps_problem::{Problem, Row};

fn have_wrong_shape(worlds: &[Weighted], atoms: u16) -> bool
    ensures { IsTrue result ↔ Any (λ w. length w.world ≢ atoms) worlds.now }
{
    worlds.iter().any(|w| w.world.len() != atoms as usize)
}

/// Whether a world has another length than the number of atoms.
pub fn has_wrong_shape(problem: &Problem, model: &Model) -> bool
    ensures wrong { IsTrue result → ¬ HasAtoms problem.now (model_of model.now) }
    ensures right { IsFalse result → HasAtoms problem.now (model_of model.now) }
{
    have_wrong_shape(model.worlds.as_slice(), problem.atoms())
}

/// Whether there are more worlds than rows and one.
pub fn has_too_many(rows: &[Row], model: &Model) -> bool
    requires few { length rows.now ≤ MOST_BOUNDS }
    ensures { IsTrue result ↔ (length rows.now + 1 < length model.now.worlds) }
{
    model.worlds.len() > rows.len() + 1
}

fn same(a: &World, b: &World) -> bool
    ensures { IsTrue result ↔ (a.now ≡ b.now) }
{
    a.as_slice() == b.as_slice()
}

// Whether a world stands among these.
fn holds(worlds: &[Weighted], world: &World) -> bool
    ensures { IsTrue result ↔ Any (λ w. w.world ≡ world.now) worlds.now }
{
    worlds.iter().any(|w| same(&w.world, world))
}

/// The reason against the first entry that has no weight or whose world stood before.
pub fn first_among(worlds: &[Weighted]) -> Option<Reason>
    requires { AreSmall worlds.now }
    ensures { FindsFault (entries worlds.now) result }
{
    for (i, w) in worlds.iter().enumerate() {
        let number = i as u32 + 1;
        if w.weight == 0 {
            return Some(Reason::WeightZero { entry: number });
        }
        if holds(&worlds[..i], &w.world) {
            return Some(Reason::WorldTwice { entry: number });
        }
    }
    None
}

fn sum_of(worlds: &[Weighted]) -> i128
    requires { AreSmall worlds.now }
    ensures { result ≡ total (entries worlds.now) }
{
    let mut sum = 0;
    for w in worlds {
        sum += w.weight;
    }
    sum
}

/// Whether the total is 0 or isn't the sum of the weights.
pub fn has_wrong_total(model: &Model) -> bool
    requires { IsSmallModel model.now }
    ensures wrong { IsTrue result → ¬ HasTotal (model_of model.now) }
    ensures right { IsFalse result → HasTotal (model_of model.now) }
{
    model.total == 0 || model.total != sum_of(model.worlds.as_slice())
}
