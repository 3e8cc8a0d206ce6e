//! An operation on fractions that was refused.

ghost use Rattle.ps_frac.specs.Refusals.{Refuses};

use crate::fraction::Fraction;
use thiserror::Error;

/// The operations that can be refused.
#[derive(Clone, Copy, PartialEq, Eq, Debug, Drop)]
pub enum Op {
    /// A sum.
    Add,
    /// A difference.
    Sub,
    /// A product.
    Mul,
    /// A quotient.
    Div,
    /// A least common multiple.
    Lcm,
}

/// An operation that was refused, with the operands as they were handed in.
#[derive(Clone, Copy, PartialEq, Eq, Debug, Drop, Error)]
#[error("a number of the result is too large")]
pub struct Wide {
    /// The operation.
    pub op: Op,
    /// Its left operand.
    pub left: Fraction,
    /// Its right operand.
    pub right: Fraction,
}

impl Wide {
    /// The refusal of an operation on two fractions.
    pub(crate) fn of(operation: Op, first: &Fraction, second: &Fraction) -> Wide
        ensures value { Refuses operation first.now second.now result }
    {
        Wide {
            op: operation,
            left: *first,
            right: *second,
        }
    }
}
