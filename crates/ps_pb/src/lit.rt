//! A variable, or its opposite.
ghost use Rattle.std.specs.Prelude.{◌≡◌, ◌≤◌, ◌<◌, ◌↔◌, IfSome, IsSome, unsigned_abs, neg_ℤ};
ghost use Rattle.ps_pb.specs.Assignments.{place, is_positive, literal_at};
ghost use Rattle.ps_pb.specs.Limits.{IsLiteral};
ghost use Rattle.ps_pb.specs.declared.limits.TheConstants.{MOST_VARIABLES};

use crate::limits::MOST_VARIABLES;
use std::marker::Model;

/// A nonzero number of size at most `MOST_VARIABLES`. Its size is the number of a variable; a
/// positive one says that the variable is true, a negative one that it is false.
#[derive(Clone, Copy, Debug, PartialEq, Eq)]
pub struct Lit {
    number: i32,
}

impl Model for Lit {
    ghost use Rattle.std.specs.Prelude.{ℤ};
    ghost use Rattle.ps_pb.specs.Limits.{IsLiteral};

    ghost Value = { ℤ };

    ghost view = { λ l. l.number };

    ghost invariant = { λ l. IsLiteral l.number };

    ghost inverse = { λ z. record { number = z } };
}

impl Default for Lit {
    ghost use Rattle.std.specs.Prelude.{◌≡◌, pos};

    ghost is_default = { λ lit. lit ≡ pos 1 };

    fn default() -> Lit {
        Lit { number: 1 }
    }
}

impl Lit {
    /// The literal of a number. `None` exactly where it is 0 or of size above `MOST_VARIABLES`.
    pub fn new(n: i32) -> Option<Lit>
        ensures value { IfSome result (λ lit. lit ≡ n) }
        ensures exact { IsSome result ↔ IsLiteral n }
    {
        if n == 0 || MOST_VARIABLES < n.unsigned_abs() {
            return None;
        }
        Some(Lit { number: n })
    }

    /// The literal of the variable at a place, from 0 on.
    pub fn of_place(place: usize, positive: bool) -> Lit
        requires { place < MOST_VARIABLES }
        ensures { result ≡ literal_at place positive }
    {
        let number = place as i32 + 1;
        Lit {
            number: if positive { number } else { -number },
        }
    }

    /// Its number: that of its variable, with a minus where it says that the variable is false.
    pub fn number(&self) -> i32
        ensures value { result ≡ self.now }
        ensures within { IsLiteral result }
    {
        self.number
    }

    /// The number of its variable, from 1 to `MOST_VARIABLES`.
    pub fn variable(&self) -> u32
        ensures value { result ≡ unsigned_abs self.now }
        ensures within { (1 ≤ result) × (result ≤ MOST_VARIABLES) }
    {
        self.number.unsigned_abs()
    }

    /// The literal of the same variable that says the opposite.
    pub fn opposite(&self) -> Lit
        ensures { result ≡ neg_ℤ self.now }
    {
        Lit {
            number: -self.number,
        }
    }

    /// The place of its variable in an assignment, from 0 on.
    pub fn place(&self) -> usize
        ensures value { result ≡ place self.now }
        ensures within { result < MOST_VARIABLES }
    {
        self.variable() as usize - 1
    }

    /// Whether it says that its variable is true.
    pub fn is_positive(&self) -> bool
        ensures { result ≡ is_positive self.now }
    {
        0 < self.number
    }
}
