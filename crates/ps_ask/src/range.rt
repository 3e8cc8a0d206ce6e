//! The least and the greatest of the values that are reached.
ghost use Rattle.std.specs.Prelude.{◌≡◌, ◌⊎◌};
ghost use Rattle.ps_meaning.specs.Order.{AtMost};
ghost use Rattle.ps_ask.specs.Reached.{IsTakenIn, KeepsReached};

use ps_frac::Fraction;
use ps_spoken::Reached;
use std::cmp::Ordering;

// The lesser of two values.
#[tactic(auto, using(crate::proofs::Orders::at_most_less, crate::proofs::Orders::at_most_equal, crate::proofs::Orders::at_most_greater, crate::proofs::Orders::at_most_itself))]
fn lesser(a: &Fraction, b: &Fraction) -> Fraction
    ensures one { (result ≡ a.now) ⊎ (result ≡ b.now) }
    ensures first { AtMost result a.now }
    ensures second { AtMost result b.now }
{
    match a.cmp(b) {
        Ordering::Less | Ordering::Equal => *a,
        Ordering::Greater => *b,
    }
}

// The greater of two values.
#[tactic(auto, using(crate::proofs::Orders::at_most_less, crate::proofs::Orders::at_most_equal, crate::proofs::Orders::at_most_greater, crate::proofs::Orders::at_most_itself))]
fn greater(a: &Fraction, b: &Fraction) -> Fraction
    ensures one { (result ≡ a.now) ⊎ (result ≡ b.now) }
    ensures first { AtMost a.now result }
    ensures second { AtMost b.now result }
{
    match a.cmp(b) {
        Ordering::Less | Ordering::Equal => *b,
        Ordering::Greater => *a,
    }
}

/// What is reached of a query, with one more value, where there is one.
#[tactic(auto, using(crate::proofs::Orders::taken_in, crate::proofs::Orders::taken_first, crate::proofs::Orders::taken_none, crate::proofs::Orders::keeps_in, crate::proofs::Orders::keeps_first, crate::proofs::Orders::keeps_none))]
pub fn with_value(reached: Option<Reached>, value: Option<Fraction>) -> Option<Reached>
    ensures reached { KeepsReached reached value result }
    ensures taken { IsTakenIn reached value result }
{
    let Some(more) = value else {
        return reached;
    };
    match reached {
        Some(known) => Some(Reached {
            least: lesser(&known.least, &more),
            greatest: greater(&known.greatest, &more),
        }),
        None => Some(Reached {
            least: more,
            greatest: more,
        }),
    }
}
