//! The combination of a claim and the bounds' rows.
ghost use Rattle.std.specs.Prelude.{◌≡◌, ◌≤◌, ◌<◌, ◌+◌, ◌*◌, ◌^◌, ◌*ℤ◌, None, length, All};
ghost use Rattle.std.specs.Prelude.{IfOk, OnOk, IfSome, unsigned_abs};
ghost use Rattle.ps_problem.specs.declared.limits.TheConstants.{MOST_BOUNDS, MOST_SIZES};
ghost use Rattle.ps_problem.specs.Problems.{bounds_in};
ghost use Rattle.ps_claims.specs.Limits.{most_combination};
ghost use Rattle.ps_meaning.specs.declared.limits.TheConstants.{PRINTED_LIMIT};
ghost use Rattle.ps_claims.specs.Goals.{plus, at_node, at_condition, terms_times, row_times};
ghost use Rattle.ps_claims.specs.Goals.{rows_times, claimed_of, size_of};
ghost use Rattle.ps_claims.specs.Certificates.{dual_of, combination_by, combination_on};
ghost use Rattle.ps_claims.specs.Certificates.{HasQuery, IsMultiplier, IsSmallDual};
ghost use Rattle.ps_claims.specs.Rows.{AreOverNodes, IsNode, IsSmall, IsSmallTerm, IsSmallRow};

use crate::claim_kind::ClaimKind;
use crate::weighted_sum::Combination;
use ps_answer::Dual;
use ps_io::{List, NoMemory};
use ps_pb::Lit;
use ps_problem::{Problem, Row};
use std::alloc::Global;

/// The combination whose value in a world is the claim's and the sum of the bounds' rows there,
/// each times its multiplier. Its terms are those of the claim, and then of each row in order.
pub fn combination(
    alloc: Global,
    problem: &Problem,
    kind: ClaimKind,
    given: Option<u32>,
    both: u32,
    dual: &Dual,
) -> Result<Combination, NoMemory>
    requires given { IfSome given (λ g. g < length problem.now.nodes) }
    requires both { HasQuery kind → both < length problem.now.nodes }
    requires rows { length dual.now.rows ≡ length (bounds_in problem.now.sentences) }
    requires small { IsSmallDual dual.now }
    ensures exact { IfOk result (λ c. c ≡ combination_on problem.now kind given both dual.now) }
    ensures small { IfOk result (λ c. size_of c ≤ most_combination) }
{
    let rows = problem.rows();
    combination_of(alloc, rows, kind, given, both, dual)
}

/// The combination of the claim and these rows, of some problem.
pub fn combination_of(
    alloc: Global,
    rows: &[Row],
    kind: ClaimKind,
    given: Option<u32>,
    both: u32,
    dual: &Dual,
) -> Result<Combination, NoMemory>
    requires rows { AreOverNodes rows.now }
    requires given { IfSome given IsNode }
    requires both { HasQuery kind → IsNode both }
    requires lengths { length dual.now.rows ≡ length rows.now }
    requires small { IsSmallDual dual.now }
    ensures exact { IfOk result (λ c. c ≡ combination_by rows.now kind given both dual.now) }
    ensures small { IfOk result (λ c. size_of c ≤ most_combination) }
{
    let mut sum = Combination {
        terms: List::new(alloc),
        base: 0,
    };
    add_claim(&mut sum, kind, given, both, dual)?;
    add_rows(&mut sum, dual.rows.as_slice(), rows)?;
    Ok(sum)
}

fn add_term(sum: &mut Combination, weight: &i128, node: u32) -> Result<(), NoMemory>
    requires { IsNode node }
    ensures { OnOk result (sum.new ≡ plus sum.old (at_node weight.now node)) }
{
    sum.terms
        .push((Lit::of_place(node as usize, true), *weight))
}

// A number that counts in every world.
fn add_base(sum: &mut Combination, weight: &i128)
    requires { unsigned_abs sum.old.base + unsigned_abs weight.now ≤ 2 ^ 126 }
    ensures { sum.new ≡ plus sum.old (at_condition weight.now None) }
{
    sum.base += *weight;
}

// A condition that isn't there is always true.
fn add_condition(sum: &mut Combination, weight: &i128, given: Option<u32>) -> Result<(), NoMemory>
    requires node { IfSome given IsNode }
    requires fits { unsigned_abs sum.old.base + unsigned_abs weight.now ≤ 2 ^ 126 }
    ensures { OnOk result (sum.new ≡ plus sum.old (at_condition weight.now given)) }
{
    match given {
        Some(node) => add_term(sum, weight, node),
        None => {
            add_base(sum, weight);
            Ok(())
        }
    }
}

fn times(multiplier: &i128, number: i64) -> i128
    requires small { IsMultiplier multiplier.now }
    requires number { IsSmall number }
    ensures value { result ≡ multiplier.now *ℤ number }
    ensures size { unsigned_abs result ≤ PRINTED_LIMIT * MOST_SIZES }
{
    *multiplier * i128::from(number)
}

fn add_terms(sum: &mut Combination, multiplier: &i128, terms: &[(u32, i64)]) -> Result<(), NoMemory>
    requires small { IsMultiplier multiplier.now }
    requires terms { All IsSmallTerm terms.now }
    ensures { OnOk result (sum.new ≡ plus sum.old (terms_times multiplier.now terms.now)) }
{
    for term in terms {
        let weight = times(multiplier, term.1);
        add_term(sum, &weight, term.0)?;
    }
    Ok(())
}

fn add_row(sum: &mut Combination, multiplier: &i128, row: &Row) -> Result<(), NoMemory>
    requires small { IsMultiplier multiplier.now }
    requires row { IsSmallRow row.now }
    requires fits { unsigned_abs sum.old.base ≤ 2 ^ 125 }
    ensures { OnOk result (sum.new ≡ plus sum.old (row_times multiplier.now row.now)) }
{
    let weight = times(multiplier, row.base);
    add_base(sum, &weight);
    add_terms(sum, multiplier, row.terms.as_slice())
}

fn add_rows(sum: &mut Combination, multipliers: &[i128], rows: &[Row]) -> Result<(), NoMemory>
    requires lengths { length multipliers.now ≡ length rows.now }
    requires few { length rows.now ≤ MOST_BOUNDS }
    requires small { All IsMultiplier multipliers.now }
    requires rows { All IsSmallRow rows.now }
    requires fits { unsigned_abs sum.old.base ≤ 2 ^ 91 }
    ensures { OnOk result (sum.new ≡ plus sum.old (rows_times multipliers.now rows.now)) }
{
    for i in 0..rows.len() {
        add_row(sum, &multipliers[i], &rows[i])?;
    }
    Ok(())
}

fn add_claim(
    sum: &mut Combination,
    kind: ClaimKind,
    given: Option<u32>,
    both: u32,
    dual: &Dual,
) -> Result<(), NoMemory>
    requires given { IfSome given IsNode }
    requires both { HasQuery kind → IsNode both }
    requires small { IsSmallDual dual.now }
    requires fits { IsMultiplier sum.old.base }
    ensures { OnOk result (sum.new ≡ plus sum.old (claimed_of kind given both (dual_of dual.now))) }
{
    match kind {
        ClaimKind::Nothing => add_condition(sum, &dual.head, given),
        ClaimKind::Lower => {
            add_condition(sum, &dual.head, given)?;
            let opposite = -dual.top;
            add_term(sum, &opposite, both)
        }
        ClaimKind::Upper => {
            add_term(sum, &dual.top, both)?;
            let opposite = -dual.head;
            add_condition(sum, &opposite, given)
        }
    }
}
