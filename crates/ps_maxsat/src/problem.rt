//! Clauses, and weighted literals.
ghost use Rattle.std.specs.Prelude.{◌≡◌, ◌≤◌, ◌<◌, ◌+ℤ◌, ◌↔◌, unsigned_abs, IsTrue, All};
ghost use Rattle.ps_pb.specs.Assignments.{place};
ghost use Rattle.ps_maxsat.specs.Limits.{IsNarrow, IsSoftWithin};
ghost use Rattle.ps_maxsat.specs.declared.limits.TheConstants.{MOST_TOTAL};
ghost use Rattle.ps_maxsat.specs.Sums.{sum_of, weight_in, weight_if_positive};
ghost use Rattle.ps_maxsat.specs.Values.{most_value, IsValueOfFull, NoneIsAbove};

use crate::limits::MOST_TOTAL;
use ps_clause::ClauseForm;
use ps_pb::{Assignment, Lit, WeightedLits, sizes_fit};

/// Clauses that are to be met, and literals with weights. The value of a full assignment is the
/// base plus the weights of the soft literals that are true.
#[derive(Drop)]
pub struct Wcnf {
    /// The clauses that are to be met.
    pub hard: ClauseForm,
    /// The soft literals, with their weights.
    pub soft: WeightedLits,
    /// The value of an assignment in which no soft literal is true.
    pub base: i128,
}

impl Wcnf {
    /// Whether the sizes of the weights and of the base sum to at most `MOST_TOTAL`.
    pub fn is_narrow(&self) -> bool
        ensures { IsTrue result ↔ IsNarrow self.now }
    {
        sizes_fit(self.soft.as_slice(), &self.base, MOST_TOTAL)
    }

    /// Whether the soft literals are of the variables of the clauses.
    pub fn is_soft_within(&self) -> bool
        ensures { IsTrue result ↔ IsSoftWithin self.now }
    {
        are_within(self.soft.as_slice(), self.hard.variables() as usize)
    }
}

fn are_within(soft: &[(Lit, i128)], variables: usize) -> bool
    ensures { IsTrue result ↔ All (λ t. place t.0 < variables) soft.now }
{
    soft.iter().all(|term| term.0.place() < variables)
}

fn weight_in(a: &Assignment, term: &(Lit, i128)) -> i128
    ensures { result ≡ weight_in a.now term.now }
{
    match a.value_of(term.0) {
        Some(true) => term.1,
        _ => 0,
    }
}

fn weight_if_positive(term: &(Lit, i128)) -> i128
    ensures { result ≡ weight_if_positive term.now }
{
    if 0 < term.1 { term.1 } else { 0 }
}

/// The value of an assignment.
pub(crate) fn value(wcnf: &Wcnf, a: &Assignment) -> i128
    requires { IsNarrow wcnf.now }
    ensures sum { result ≡ wcnf.now.base +ℤ sum_of (weight_in a.now) wcnf.now.soft }
    ensures full { IsValueOfFull wcnf.now a.now result }
    ensures size { unsigned_abs result ≤ MOST_TOTAL }
{
    let mut sum = wcnf.base;
    for term in wcnf.soft.as_slice() {
        sum += weight_in(a, term);
    }
    sum
}

/// What no value is above: the base plus the positive weights.
pub(crate) fn most_value(wcnf: &Wcnf) -> i128
    requires { IsNarrow wcnf.now }
    ensures value { result ≡ most_value wcnf.now }
    ensures above { NoneIsAbove wcnf.now result }
    ensures size { unsigned_abs result ≤ MOST_TOTAL }
{
    let mut sum = wcnf.base;
    for term in wcnf.soft.as_slice() {
        sum += weight_if_positive(term);
    }
    sum
}
