//! What an assignment costs, and what it gains.
ghost use Rattle.std.specs.Prelude.{◌≡◌, ◌≤ℤ◌, ◌^◌, pos, All, slice_index_or, false};
ghost use Rattle.ps_clause.specs.Clauses.{meets};
ghost use Rattle.ps_pb.specs.Assignments.{holds};
ghost use Rattle.ps_wcnf.specs.Costs.{cost, gain, cost_part, gain_part};
ghost use Rattle.ps_wcnf.specs.Limits.{IsWeight, weight_sum};

use ps_pb::{Lit, Lits};

fn value_at(values: &[bool], place: usize) -> bool
    ensures { result ≡ slice_index_or values.now place false }
{
    if place < values.len() {
        values[place]
    } else {
        false
    }
}

#[tactic(auto, unfolding(ps_pb::specs::Assignments::holds))]
fn is_true(values: &[bool], lit: &Lit) -> bool
    ensures { result ≡ holds values.now lit.now }
{
    let value = value_at(values, lit.place());
    if lit.is_positive() { value } else { !value }
}

/// Whether one of the literals is true.
pub fn meets(values: &[bool], lits: &[Lit]) -> bool
    ensures { result ≡ meets values.now lits.now }
{
    lits.iter().any(|lit| is_true(values, lit))
}

// What a soft clause costs, and what it gains.
fn parts(values: &[bool], clause: &(i128, Lits)) -> (i128, i128)
    ensures cost { result.0 ≡ cost_part values.now clause.now }
    ensures gain { result.1 ≡ gain_part values.now clause.now }
{
    if meets(values, clause.1.as_slice()) {
        (0, clause.0)
    } else {
        (clause.0, 0)
    }
}

/// What an assignment costs, and what it gains: the weights of the soft clauses without a true
/// literal, and of those with one.
pub fn weigh(values: &[bool], soft: &[(i128, Lits)]) -> (i128, i128)
    requires some { All IsWeight soft.now }
    requires most { weight_sum soft.now ≤ℤ pos (2 ^ 90) }
    ensures cost { result.0 ≡ cost values.now soft.now }
    ensures gain { result.1 ≡ gain values.now soft.now }
    ensures low { pos 0 ≤ℤ result.1 }
    ensures high { result.1 ≤ℤ pos (2 ^ 90) }
{
    let mut costs = 0;
    let mut gains = 0;
    for clause in soft {
        let (cost, gain) = parts(values, clause);
        costs += cost;
        gains += gain;
    }
    (costs, gains)
}
