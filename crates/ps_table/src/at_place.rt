//! Operations on fractions that name their place where they are refused.
ghost use Rattle.std.specs.Prelude.{◌≡◌, ◌≢◌, ◌↔◌, IfOk, IfErr, IsErr};
ghost use Rattle.ps_meaning.specs.Rational.{add, mul, neg, sub, div, inverse, zero_q};
ghost use Rattle.ps_meaning.specs.Wide.{SumIsWide, ProductIsWide};
ghost use Rattle.ps_table.specs.Grids.{Names};

use crate::place::{Place, WideAt};
use ps_frac::{Fraction, Op, Wide};

/// A refusal of fractions, with its place.
fn wide_at(place: Place, wide: Wide) -> WideAt
    ensures value { Names place wide.op wide.left wide.right result }
{
    WideAt {
        place,
        op: wide.op,
        left: wide.left,
        right: wide.right,
    }
}

/// A quotient, whose refusal names the place.
pub fn divided_at(place: Place, left: &Fraction, right: &Fraction) -> Result<Fraction, WideAt>
    requires { right.now ≢ zero_q }
    ensures value { IfOk result (λ r. r ≡ div left.now right.now) }
    ensures wide { IsErr result ↔ ProductIsWide left.now (inverse right.now) }
    ensures operands { IfErr result (Names place Op.Div left.now right.now) }
{
    left.div(right).map_err(|wide| wide_at(place, wide))
}

/// A product, whose refusal names the place.
pub(crate) fn times_at(place: Place, left: &Fraction, right: &Fraction) -> Result<Fraction, WideAt>
    ensures value { IfOk result (λ r. r ≡ mul left.now right.now) }
    ensures wide { IsErr result ↔ ProductIsWide left.now right.now }
    ensures operands { IfErr result (Names place Op.Mul left.now right.now) }
{
    left.mul(right).map_err(|wide| wide_at(place, wide))
}

/// A difference, whose refusal names the place.
pub(crate) fn minus_at(place: Place, left: &Fraction, right: &Fraction) -> Result<Fraction, WideAt>
    ensures value { IfOk result (λ r. r ≡ sub left.now right.now) }
    ensures wide { IsErr result ↔ SumIsWide left.now (neg right.now) }
    ensures operands { IfErr result (Names place Op.Sub left.now right.now) }
{
    left.sub(right).map_err(|wide| wide_at(place, wide))
}

/// A sum, whose refusal names the place.
pub(crate) fn plus_at(place: Place, left: &Fraction, right: &Fraction) -> Result<Fraction, WideAt>
    ensures value { IfOk result (λ r. r ≡ add left.now right.now) }
    ensures wide { IsErr result ↔ SumIsWide left.now right.now }
    ensures operands { IfErr result (Names place Op.Add left.now right.now) }
{
    left.add(right).map_err(|wide| wide_at(place, wide))
}
