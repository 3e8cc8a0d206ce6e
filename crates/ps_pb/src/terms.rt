//! Literals with whole numbers.
ghost use Rattle.std.specs.Prelude.{◌≡◌, ◌++◌, [], ◌∷◌, length, slice_get, option_copied};
ghost use Rattle.std.specs.Prelude.{◌<◌, ◌≤◌, ◌+◌, ◌^◌, ◌↔◌, unsigned_abs, IsTrue};
ghost use Rattle.std.specs.Prelude.{IfOk, OnOk, OnErr, IfSome, IfNone, IsPermutation};
ghost use Rattle.ps_pb.specs.Weights.{size_sum};

use crate::lit::Lit;
use ps_io::{List, NoMemory};
use smallvec::SmallVec;
use std::alloc::Global;
use std::marker::Model;

// So many terms stand in place.
const IN_PLACE: usize = 4;

/// Literals with weights, in which a literal may stand more than once.
pub type WeightedLits = List<(Lit, i128)>;

/// Literals with their coefficients; the first few stand in place.
#[derive(Drop)]
pub struct Terms {
    items: SmallVec<(Lit, i128), IN_PLACE>,
}

impl Model for Terms {
    ghost use Rattle.std.specs.Prelude.{List, ℤ};

    ghost Value = { List (ℤ × ℤ) };

    ghost view = { λ t. t.items.items };
}

impl Terms {
    /// No terms.
    pub fn new(alloc: Global) -> Terms
        ensures { result ≡ [] }
    {
        Terms {
            items: SmallVec::new(alloc),
        }
    }

    /// The same terms.
    pub fn copy(&self, alloc: Global) -> Result<Terms, NoMemory>
        ensures { IfOk result (λ terms. terms ≡ self.now) }
    {
        let items = SmallVec::from_slice(alloc, self.items.as_slice())?;
        Ok(Terms { items })
    }

    /// The number of terms.
    pub fn len(&self) -> usize
        ensures { result ≡ length self.now }
    {
        self.items.len()
    }

    /// The term at a place, from 0 on; `None` where there is none.
    pub fn get(&self, i: usize) -> Option<&(Lit, i128)>
        ensures { option_copied result ≡ slice_get self.now i }
    {
        self.as_slice().get(i)
    }

    /// The terms, in order.
    pub fn as_slice(&self) -> &[(Lit, i128)]
        ensures { result.now ≡ self.now }
    {
        self.items.as_slice()
    }

    /// Adds a term at the end.
    pub fn push(&mut self, item: (Lit, i128)) -> Result<(), NoMemory>
        ensures ok { OnOk result (self.new ≡ self.old ++ item ∷ []) }
        ensures err { OnErr result (self.new ≡ self.old) }
    {
        self.items.push(item)?;
        Ok(())
    }

    /// Takes the last term out; `None` where there is none.
    pub fn pop(&mut self) -> Option<(Lit, i128)>
        ensures some { IfSome result (λ x. self.old ≡ self.new ++ x ∷ []) }
        ensures none { IfNone result ((self.old ≡ []) × (self.new ≡ [])) }
    {
        self.items.pop()
    }

    /// Brings them into the order of their variables.
    pub(crate) fn sort(&mut self)
        ensures { IsPermutation self.old self.new }
    {
        self.items.sort_unstable_by_key(|term| term.0.variable());
    }
}

/// Whether the sizes of the weights and of one more number sum to at most so much.
pub fn sizes_fit(weights: &[(Lit, i128)], number: &i128, most: u128) -> bool
    requires { most < 2 ^ 127 }
    ensures { IsTrue result ↔ (size_sum weights.now + unsigned_abs number.now ≤ most) }
{
    let mut sum = number.unsigned_abs();
    for weight in weights {
        if most < sum {
            return false;
        }
        sum += weight.1.unsigned_abs();
    }
    sum <= most
}
