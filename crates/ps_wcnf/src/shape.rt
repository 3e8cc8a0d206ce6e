//! Literals once each, and whether one is the opposite of another.
ghost use Rattle.std.specs.Prelude.{◌≡◌, IfOk};
ghost use Rattle.std.specs.List.{list_any};
ghost use Rattle.std.specs.Ordering.{int_eq};
ghost use Rattle.ps_clause.specs.Clauses.{once, is_tautology};
ghost use Rattle.ps_wcnf.specs.Valued.{is_long};

use ps_io::NoMemory;
use ps_pb::Lit;
use std::alloc::Global;

fn contains(lits: &[Lit], lit: Lit) -> bool
    ensures { result ≡ list_any (int_eq lit) lits.now }
{
    let number = lit.number();
    lits.iter().any(|other| number == other.number())
}

/// Whether a literal is the opposite of another.
pub(crate) fn is_tautology(lits: &[Lit]) -> bool
    ensures { result ≡ is_tautology lits.now }
{
    lits.iter().any(|lit| contains(lits, lit.opposite()))
}

/// Each literal once.
pub(crate) fn once(alloc: Global, lits: &[Lit]) -> Result<Vec<Lit>, NoMemory>
    ensures { IfOk result (λ kept. kept.items ≡ once lits.now) }
{
    let mut kept = Vec::new(alloc);
    for lit in lits {
        if !contains(&kept, *lit) {
            kept.push(*lit)?;
        }
    }
    Ok(kept)
}

/// Whether a soft clause of the literals gets a variable of its own.
#[tactic(auto, using(crate::proofs::Shapes::long_once))]
pub(crate) fn is_long(alloc: Global, lits: &[Lit]) -> Result<bool, NoMemory>
    ensures { IfOk result (λ long. long ≡ is_long lits.now) }
{
    let kept = once(alloc, lits)?;
    Ok(!is_tautology(&kept) && 1 < kept.len())
}
