//! The value of an assignment in which none of the weighted literals is true.
ghost use Rattle.std.specs.Prelude.{◌≡◌, ◌≤ℤ◌, ◌^◌, pos, All, IfOk, if◌then◌else◌};
ghost use Rattle.ps_clause.specs.Clauses.{is_tautology};
ghost use Rattle.ps_wcnf.specs.Limits.{IsWeight, weight_sum};
ghost use Rattle.ps_wcnf.specs.Valued.{always};

use crate::shape::{is_tautology, once};
use ps_io::NoMemory;
use ps_pb::Lits;
use std::alloc::Global;

// The weight of a soft clause that has a literal and its opposite, else 0.
#[tactic(auto, using(crate::proofs::Shapes::taut_once))]
fn part(alloc: Global, clause: &(i128, Lits)) -> Result<i128, NoMemory>
    ensures { IfOk result (λ k. k ≡ (if is_tautology clause.now.1 then clause.now.0 else pos 0)) }
{
    let kept = once(alloc, clause.1.as_slice())?;
    if is_tautology(&kept) {
        Ok(clause.0)
    } else {
        Ok(0)
    }
}

/// The weight of the soft clauses that have a literal and its opposite.
pub(crate) fn always(alloc: Global, soft: &[(i128, Lits)]) -> Result<i128, NoMemory>
    requires some { All IsWeight soft.now }
    requires most { weight_sum soft.now ≤ℤ pos (2 ^ 90) }
    ensures value { IfOk result (λ k. k ≡ always soft.now) }
    ensures low { IfOk result (λ k. pos 0 ≤ℤ k) }
    ensures high { IfOk result (λ k. k ≤ℤ pos (2 ^ 90)) }
{
    let mut sum = 0;
    for clause in soft {
        let more = part(alloc, clause)?;
        sum += more;
    }
    Ok(sum)
}
