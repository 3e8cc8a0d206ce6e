//! How far apart values lie: each is the base plus a multiple of the greatest common divisor of the
//! weights.
ghost use Rattle.std.specs.Prelude.{◌<◌, ◌≤◌, ◌+ℤ◌, ◌-ℤ◌, ◌≤ℤ◌, ◌<ℤ◌, pos, unsigned_abs};
ghost use Rattle.std.specs.Int.{IsGcd, ◌∣◌};
ghost use Rattle.ps_maxsat.specs.declared.limits.TheConstants.{MOST_TOTAL};
ghost use Rattle.ps_maxsat.specs.Spacing.{IsUnit};
ghost use Rattle.ps_maxsat.specs.Values.{LeavesNone};

use ps_pb::Lit;

// The greatest common divisor of two numbers, by Euclid's remainders.
fn gcd(a: u128, b: u128) -> u128
    ensures { IsGcd a b result }
{
    let mut x = a;
    let mut y = b;
    while y != 0 {
        let rest = x % y;
        x = y;
        y = rest;
    }
    x
}

/// The unit of the values: the greatest common divisor of the weights, and 0 where each is 0.
pub(crate) fn unit_of(soft: &[(Lit, i128)]) -> u128
    ensures { IsUnit soft.now result }
{
    let mut unit = 0;
    for term in soft {
        unit = gcd(unit, term.1.unsigned_abs());
    }
    unit
}

/// The greatest number that isn't above the bound, and lies a multiple of the unit above the value
/// that was found. No value lies between it and the bound.
pub(crate) fn greatest_in_steps(found: i128, unit: u128, bound: i128) -> i128
    requires above { found ≤ℤ bound }
    requires found_size { unsigned_abs found ≤ MOST_TOTAL }
    requires bound_size { unsigned_abs bound ≤ MOST_TOTAL }
    ensures from { found ≤ℤ result }
    ensures within { result ≤ℤ bound }
    ensures steps { unit ∣ unsigned_abs (result -ℤ found) }
    ensures greatest { 0 < unit → bound <ℤ (result +ℤ pos unit) }
    ensures none_between { LeavesNone unit found result bound }
{
    if unit == 0 {
        return found;
    }
    bound - (bound.abs_diff(found) % unit) as i128
}
