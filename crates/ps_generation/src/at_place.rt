//! Whole numbers that are printed, with the place where one is too large.
ghost use Rattle.std.specs.Prelude.{◌≡◌, ◌<◌, ◌≤◌, ◌+ℤ◌, pos, unsigned_abs, IfOk, IfErr};
ghost use Rattle.std.specs.Option.{SomeIff};
ghost use Rattle.ps_meaning.specs.Gcd.{lcm};
ghost use Rattle.ps_meaning.specs.Rational.{whole};
ghost use Rattle.ps_meaning.specs.Scaled.{scaled};
ghost use Rattle.ps_meaning.specs.declared.limits.TheConstants.{PRINTED_LIMIT};
ghost use Rattle.ps_table.specs.Places.{IsTooLargeToPrint};
ghost use Rattle.ps_table.specs.Grids.{Names};
ghost use Rattle.ps_generation.specs.Rows.{NamesMultiple};

use ps_frac::{Fraction, Op, lcm_upto};
use ps_meaning::PRINTED_LIMIT;
use ps_table::{Place, WideAt, can_be_printed};

/// The least common multiple, where it is small enough to be printed.
#[tactic(auto, using(crate::proofs::Least::past_multiple))]
fn printed_multiple(a: u128, b: u128) -> Option<u128>
    requires a_positive { 0 < a }
    requires a_small { a ≤ PRINTED_LIMIT }
    requires b_positive { 0 < b }
    ensures { SomeIff result (lcm a b ≤ PRINTED_LIMIT) (lcm a b) }
{
    if PRINTED_LIMIT < b {
        return None;
    }
    let multiple = lcm_upto(a as i128, b as i128, PRINTED_LIMIT as i128)?;
    Some(multiple.unsigned_abs())
}

/// The least common multiple of a number and a fraction's denominator.
#[tactic(auto, using(crate::proofs::Least::lcm_above))]
pub(crate) fn multiple_at(place: Place, multiple: u128, number: &Fraction) -> Result<u128, WideAt>
    requires positive { 0 < multiple }
    requires small { multiple ≤ PRINTED_LIMIT }
    ensures value { IfOk result (λ r. r ≡ lcm multiple number.now.under) }
    ensures positive { IfOk result (λ r. 0 < r) }
    ensures within { IfOk result (λ r. r ≤ PRINTED_LIMIT) }
    ensures wide { IfErr result (λ _. PRINTED_LIMIT < lcm multiple number.now.under) }
    ensures operands { IfErr result (NamesMultiple place multiple number.now.under) }
{
    let under = number.denominator();
    match printed_multiple(multiple, under.unsigned_abs()) {
        Some(least) => Ok(least),
        None => Err(WideAt {
            place,
            op: Op::Lcm,
            left: Fraction::new(multiple as i128, 1),
            right: Fraction::new(under, 1),
        }),
    }
}

/// A fraction times a multiple of its denominator, where it is small enough to be printed.
fn printed_product(number: &Fraction, multiple: u128) -> Option<i128>
    requires { multiple ≤ PRINTED_LIMIT }
    ensures { let z = scaled multiple number.now in SomeIff result
        (unsigned_abs z ≤ PRINTED_LIMIT) z }
{
    let times = multiple / number.denominator().unsigned_abs();
    let product = number.numerator().checked_mul(times as i128)?;
    if can_be_printed(product) {
        Some(product)
    } else {
        None
    }
}

/// A fraction times a multiple of its denominator.
pub(crate) fn product_at(place: Place, number: &Fraction, multiple: u128) -> Result<i128, WideAt>
    requires { multiple ≤ PRINTED_LIMIT }
    ensures value { IfOk result (λ r. r ≡ scaled multiple number.now) }
    ensures within { IfOk result (λ r. unsigned_abs r ≤ PRINTED_LIMIT) }
    ensures wide { IfErr result (λ _. IsTooLargeToPrint (scaled multiple number.now)) }
    ensures operands { IfErr result (Names place Op.Mul number.now (whole (pos multiple))) }
{
    match printed_product(number, multiple) {
        Some(product) => Ok(product),
        None => Err(WideAt {
            place,
            op: Op::Mul,
            left: *number,
            right: Fraction::new(multiple as i128, 1),
        }),
    }
}

/// The sum of two weights.
pub(crate) fn sum_at(place: Place, total: i128, weight: i128) -> Result<i128, WideAt>
    requires total { unsigned_abs total ≤ PRINTED_LIMIT }
    requires weight { unsigned_abs weight ≤ PRINTED_LIMIT }
    ensures value { IfOk result (λ r. r ≡ total +ℤ weight) }
    ensures within { IfOk result (λ r. unsigned_abs r ≤ PRINTED_LIMIT) }
    ensures wide { IfErr result (λ _. IsTooLargeToPrint (total +ℤ weight)) }
    ensures operands { IfErr result (Names place Op.Add (whole total) (whole weight)) }
{
    let sum = total + weight;
    if can_be_printed(sum) {
        return Ok(sum);
    }
    Err(WideAt {
        place,
        op: Op::Add,
        left: Fraction::new(total, 1),
        right: Fraction::new(weight, 1),
    })
}
