//! Whether weights meet rows.
ghost use Rattle.std.specs.Prelude.{◌≡◌, ◌≤◌, ◌+◌, ◌*◌, ◌↔◌, pos, ◌≤ℤ◌, ◌+ℤ◌, ◌*ℤ◌, All, length};
ghost use Rattle.std.specs.Prelude.{IfSome, IsTrue, unsigned_abs};
ghost use Rattle.ps_meaning.specs.Distribution.{weight, total};
ghost use Rattle.ps_meaning.specs.Bounds.{Compares};
ghost use Rattle.ps_problem.specs.Problems.{terms_size};
ghost use Rattle.ps_problem.specs.Rows.{IsRow};
ghost use Rattle.ps_problem.specs.declared.limits.TheConstants.{MOST_BOUNDS, MOST_SIZES};
ghost use Rattle.ps_claims.specs.Claims.{HasTotal};
ghost use Rattle.ps_claims.specs.Certificates.{entries, model_of};
ghost use Rattle.ps_meaning.specs.declared.limits.TheConstants.{PRINTED_LIMIT};
ghost use Rattle.ps_valid.specs.Limits.{IsAmount, IsSmallModel};
ghost use Rattle.ps_answer.specs.declared.limits.TheConstants.{MOST_ENTRIES};
ghost use Rattle.ps_valid.specs.Valuations.{AreValuations, Covers, HaveNode, IsTableOf, MeetsAt};
ghost use Rattle.ps_valid.specs.Valuations.{node_at, valued_entries, terms_sum};
ghost use Rattle.ps_valid.specs.Tests.{FindsMissed, FindsMissedAt};

use crate::truth::{Valuation, weight_of};
use ps_answer::Model;
use ps_problem::{Problem, Row, Side};

fn compares(side: Side, x: i128, y: i128) -> bool
    ensures { IsTrue result ↔ Compares side x y }
{
    match side {
        Side::AtLeast => y <= x,
        Side::AtMost => x <= y,
        Side::Exactly => x == y,
    }
}

// A weight times a number of a row.
fn times(number: i64, x: i128) -> i128
    requires small { unsigned_abs number ≤ MOST_SIZES }
    requires low { pos 0 ≤ℤ x }
    requires high { x ≤ℤ pos (MOST_ENTRIES * PRINTED_LIMIT) }
    ensures { result ≡ number *ℤ x }
{
    i128::from(number) * x
}

/// The weight of a condition, which is the total where nothing is given.
pub fn weight_given(valued: &[Valuation], sum: i128, given: Option<u32>) -> i128
    requires valued { AreValuations valued.now }
    requires given { IfSome given (HaveNode valued.now) }
    requires total { sum ≡ total (valued_entries valued.now) }
    requires small { IsAmount sum }
    ensures weight { result ≡ weight (valued_entries valued.now) (node_at given) }
    ensures low { pos 0 ≤ℤ result }
    ensures high { result ≤ℤ pos (MOST_ENTRIES * PRINTED_LIMIT) }
{
    match given {
        Some(node) => weight_of(valued, node),
        None => sum,
    }
}

// A base times the total, and the sum of terms: the weight of each node times its number.
fn row_sum(valued: &[Valuation], whole: i128, base: i64, terms: &[(u32, i64)]) -> i128
    requires valued { AreValuations valued.now }
    requires nodes { All (λ t. HaveNode valued.now t.0) terms.now }
    requires numbers { unsigned_abs base + terms_size terms.now ≤ MOST_SIZES }
    requires whole { IsAmount whole }
    ensures { result ≡ (base *ℤ whole) +ℤ terms_sum (valued_entries valued.now) terms.now }
{
    let mut sum = times(base, whole);
    for term in terms {
        sum += times(term.1, weight_of(valued, term.0));
    }
    sum
}

#[tactic(auto, unfolding(crate::specs::Valuations::MeetsAt))]
fn is_met(valued: &[Valuation], whole: i128, row: &Row) -> bool
    requires valued { AreValuations valued.now }
    requires row { Covers valued.now row.now }
    requires total { whole ≡ total (valued_entries valued.now) }
    requires small { IsAmount whole }
    ensures { IsTrue result ↔ MeetsAt (valued_entries valued.now) row.now }
{
    let sum = row_sum(valued, whole, row.base, row.terms.as_slice());
    compares(row.side, sum, 0)
}

// The number of the first row that isn't met.
fn first_missed(valued: &[Valuation], whole: i128, rows: &[Row]) -> Option<u32>
    requires valued { AreValuations valued.now }
    requires rows { All (Covers valued.now) rows.now }
    requires few { length rows.now ≤ MOST_BOUNDS }
    requires total { whole ≡ total (valued_entries valued.now) }
    requires small { IsAmount whole }
    ensures { FindsMissedAt (valued_entries valued.now) rows.now result }
{
    for (i, row) in rows.iter().enumerate() {
        if !is_met(valued, whole, row) {
            return Some(i as u32 + 1);
        }
    }
    None
}

/// The number of the first row over a problem's nodes that a model doesn't meet; the valuations have
/// the truth of each node in its worlds.
pub fn missed_row(
    problem: &Problem,
    rows: &[Row],
    model: &Model,
    valued: &[Valuation],
) -> Option<u32>
    requires rows { All (IsRow problem.now.nodes) rows.now }
    requires few { length rows.now ≤ MOST_BOUNDS }
    requires table { IsTableOf problem.now.nodes (entries model.now.worlds) valued.now }
    requires small { IsSmallModel model.now }
    requires total { HasTotal (model_of model.now) }
    ensures { FindsMissed problem.now.nodes rows.now (entries model.now.worlds) result }
{
    first_missed(valued, model.total, rows)
}
