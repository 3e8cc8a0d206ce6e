//! The rows of bounds, in the words of linear programs: a distribution meets a bound where the mean
//! of its row over the worlds is on its side of 0 (N. J. Nilsson, "Probabilistic logic", Artificial
//! Intelligence 28, 1986; R. Fagin, J. Y. Halpern, N. Megiddo, "A logic for reasoning about
//! probabilities", Information and Computation 87, 1990).
ghost use Rattle.std.specs.Prelude.{◌≡◌, ◌≤◌, ◌<◌, ◌+◌, ◌≤ℤ◌, ◌+ℤ◌, ◌*ℤ◌, pos, All, IfSome};
ghost use Rattle.std.specs.Prelude.{OnOk, IfOk, ◌++◌, [], ◌∷◌, length, unsigned_abs};
ghost use Rattle.ps_problem.specs.declared.limits.TheConstants.{MOST_SIZES, MOST_ROW_VALUE};
ghost use Rattle.ps_problem.specs.Problems.{PlainIn, LinearIn, terms_size};
ghost use Rattle.ps_problem.specs.Shown.{shown};
ghost use Rattle.ps_problem.specs.Rows.{HasNode, HasNodesIn, HasTerm, HasRow, indicator_of};
ghost use Rattle.ps_problem.specs.Rows.{given_indicator, bound_over, term_over, terms_over};
ghost use Rattle.ps_problem.specs.Rows.{row_over, row_size};

use crate::{Bound, BoundAt, Linear, LinearTerms, Side};

/// A row: its mean over the worlds is to be on a side of 0.
#[derive(Debug, Drop)]
pub struct Row {
    /// The side.
    pub side: Side,
    /// One over this is what the numbers count in: the denominator of a plain bound, the scale of a
    /// linear one.
    pub unit: u32,
    /// The number that counts in every world.
    pub base: i64,
    /// The nodes of formulas, each with the number that counts where it is true.
    pub terms: LinearTerms,
}

impl Row {
    /// What the row has in a world, by the truth values of the nodes there.
    pub fn value(&self, truth: &[bool]) -> i64
        requires nodes { All (HasTerm truth.now) self.now.terms }
        requires small { row_size self.now ≤ MOST_SIZES }
        ensures value { result ≡ row_over truth.now self.now }
        ensures size { unsigned_abs result ≤ MOST_SIZES }
    {
        sum_from(self.base, self.terms.as_slice(), truth)
    }
}

/// 1 where a node is true, else 0.
fn indicator(truth: &[bool], node: u32) -> i64
    requires { HasNode truth.now node }
    ensures value { result ≡ indicator_of truth.now node }
    ensures low { pos 0 ≤ℤ result }
    ensures high { result ≤ℤ pos 1 }
{
    if truth[node as usize] { 1 } else { 0 }
}

/// 1 where a condition is true, which it always is where nothing is given.
pub fn given_indicator(truth: &[bool], given: Option<u32>) -> i64
    requires { IfSome given (HasNode truth.now) }
    ensures value { result ≡ given_indicator truth.now given }
    ensures low { pos 0 ≤ℤ result }
    ensures high { result ≤ℤ pos 1 }
{
    match given {
        Some(node) => indicator(truth, node),
        None => 1,
    }
}

/// A numerator or denominator times 0 or 1.
fn times(number: u32, by: i64) -> i64
    requires low { pos 0 ≤ℤ by }
    requires high { by ≤ℤ pos 1 }
    ensures value { result ≡ pos number *ℤ by }
    ensures least { pos 0 ≤ℤ result }
    ensures most { result ≤ℤ pos number }
{
    if by == 0 { 0 } else { number as i64 }
}

/// A term's number where its node is true, else 0.
fn part(node: u32, number: i64, truth: &[bool]) -> i64
    requires { node < length truth.now }
    ensures { result ≡ term_over truth.now (node, number) }
{
    if truth[node as usize] { number } else { 0 }
}

/// A number and those of the terms whose nodes are true.
fn sum_from(base: i64, terms: &[(u32, i64)], truth: &[bool]) -> i64
    requires nodes { All (HasTerm truth.now) terms.now }
    requires small { unsigned_abs base + terms_size terms.now ≤ MOST_SIZES }
    ensures value { result ≡ base +ℤ terms_over truth.now terms.now }
    ensures size { unsigned_abs result ≤ MOST_SIZES }
{
    let mut sum = base;
    for term in terms {
        sum += part(term.0, term.1, truth);
    }
    sum
}

/// What the row of a plain bound has in a world.
fn plain_value(bound: &Bound, truth: &[bool]) -> i64
    requires { HasNodesIn truth.now bound.now }
    ensures value { result ≡ bound_over truth.now (PlainIn bound.now) }
    ensures size { unsigned_abs result ≤ MOST_ROW_VALUE }
{
    times(bound.den, indicator(truth, bound.both))
        - times(bound.num, given_indicator(truth, bound.given))
}

/// What the row of a linear sentence's bound has in a world.
fn linear_value(linear: &Linear, upper: bool, truth: &[bool]) -> i64
    requires { HasRow truth.now (LinearIn linear.now upper) }
    ensures value { result ≡ bound_over truth.now (LinearIn linear.now upper) }
    ensures size { unsigned_abs result ≤ MOST_SIZES }
{
    sum_from(-linear.right_of(upper), linear.terms.as_slice(), truth)
}

/// What the row of a bound has in a world, by the truth values of the nodes there: of a plain bound
/// the denominator where formula and condition are true, less the numerator where the condition is;
/// of a linear one the numbers of the terms whose formulas are true, less the right side.
pub fn row_value(bound: &BoundAt<'_>, truth: &[bool]) -> i64
    requires { HasRow truth.now (shown bound.now) }
    ensures value { result ≡ bound_over truth.now (shown bound.now) }
    ensures size { unsigned_abs result ≤ MOST_ROW_VALUE }
{
    match *bound {
        BoundAt::Plain(plain) => plain_value(plain, truth),
        BoundAt::Linear { of, upper } => linear_value(of, upper, truth),
    }
}
