//! The slack of a constraint under an assignment, and what it forces.
ghost use Rattle.std.specs.Prelude.{◌≡◌, ◌↔◌, pos, ◌≤ℤ◌, ◌<ℤ◌, All, IsTrue, if◌then◌else◌};
ghost use Rattle.ps_pb.specs.Constraints.{slack, is_open, is_forced, Forces};
ghost use Rattle.ps_pb.specs.Constraints.{some_forced, with_forced};
ghost use Rattle.ps_pb.specs.Weights.{term_of, terms_of};
ghost use Rattle.ps_pb.specs.Effects.{Propagates};

use crate::assignment::Assignment;
use crate::constraint::Constraint;
use crate::lit::Lit;

/// The sum of the coefficients whose literals aren't false, less the degree.
pub fn slack(c: &Constraint, a: &Assignment) -> i128
    ensures { result ≡ slack c.now a.now }
{
    let mut sum = 0;
    for term in c.terms().as_slice() {
        sum += open_part(a, term);
    }
    sum - c.degree()
}

fn open_part(a: &Assignment, term: &(Lit, i128)) -> i128
    ensures { result ≡ (if is_open a.now term.now.0 then term.now.1 else pos 0) }
{
    match a.value_of(term.0) {
        Some(false) => 0,
        _ => term.1,
    }
}

/// Whether a term is forced under this slack: its literal is unset, and its coefficient is greater.
pub fn is_forced(a: &Assignment, term: &(Lit, i128), slack: &i128) -> bool
    requires { pos 1 ≤ℤ term.now.1 }
    ensures { result ≡ is_forced slack.now a.now (term_of term.now) }
{
    match a.value_of(term.0) {
        None => *slack < term.1,
        Some(_) => false,
    }
}

fn some_forced(terms: &[(Lit, i128)], a: &Assignment, slack: &i128) -> bool
    requires { All (λ t. pos 1 ≤ℤ t.1) terms.now }
    ensures { result ≡ some_forced slack.now a.now (terms_of terms.now) }
{
    for term in terms {
        if is_forced(a, term, slack) {
            return true;
        }
    }
    false
}

fn set_forced(terms: &[(Lit, i128)], a: &mut Assignment, slack: &i128)
    requires { All (λ t. pos 1 ≤ℤ t.1) terms.now }
    ensures { a.new ≡ with_forced slack.now (terms_of terms.now) a.old }
{
    for term in terms {
        if is_forced(a, term, slack) {
            a.set(term.0);
        }
    }
}

/// Whether the literal is a term of the constraint, unset, with a coefficient greater than the
/// slack.
pub fn forces(c: &Constraint, a: &Assignment, lit: Lit) -> bool
    ensures { IsTrue result ↔ Forces c.now a.now lit }
{
    if a.value_of(lit).is_some() {
        return false;
    }
    let slack = slack(c, a);
    for term in c.terms().as_slice() {
        if is_above(term, lit, &slack) {
            return true;
        }
    }
    false
}

fn is_above(term: &(Lit, i128), lit: Lit, slack: &i128) -> bool
    ensures { IsTrue result ↔ ((term.now.0 ≡ lit) × (slack.now <ℤ term.now.1)) }
{
    term.0.number() == lit.number() && *slack < term.1
}

/// What a constraint does to an assignment.
#[derive(Clone, Copy, Debug, PartialEq, Eq)]
pub enum Effect {
    /// It is violated; nothing was set.
    Violated,
    /// It forced literals, which are set.
    Forced,
    /// It is neither violated nor forces a literal.
    Idle,
}

/// Sets each literal that the constraint forces, unless it is violated.
pub fn propagate(c: &Constraint, a: &mut Assignment) -> Effect
    ensures { Propagates c.now a.old a.new result }
{
    let slack = slack(c, a);
    if slack < 0 {
        return Effect::Violated;
    }
    let terms = c.terms().as_slice();
    if !some_forced(terms, a, &slack) {
        return Effect::Idle;
    }
    set_forced(terms, a, &slack);
    Effect::Forced
}
