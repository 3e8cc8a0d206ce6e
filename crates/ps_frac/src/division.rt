//! Long division.
ghost use Rattle.std.specs.Prelude.{◌≡◌, ◌+◌, ◌*◌, ◌^◌, ◌<◌, ◌≤◌};
ghost use Rattle.ps_meaning.specs.declared.limits.TheConstants.{PRINTED_LIMIT};
ghost use Rattle.ps_frac.specs.declared.limits.TheConstants.{MOST_DIGITS, MOST_UNITS};

// One more digit of a quotient, and what is left then.
fn next_digit(quotient: u128, rest: u128, under: u128) -> (u128, u128)
    requires few { quotient ≤ MOST_UNITS }
    requires rest { rest < under }
    requires small { under ≤ PRINTED_LIMIT }
    ensures same { result.0 * under + result.1 ≡ (quotient * under + rest) * 10 }
    ensures rest { result.1 < under }
{
    let tenfold = rest * 10;
    (quotient * 10 + tenfold / under, tenfold % under)
}

/// The quotient of `over * 10 ^ digits` and `under`, and its rest.
pub fn long_division(over: u128, under: u128, digits: u32) -> (u128, u128)
    requires positive { 0 < under }
    requires within { over ≤ under }
    requires small { under ≤ PRINTED_LIMIT }
    requires few { digits ≤ MOST_DIGITS }
    ensures same { result.0 * under + result.1 ≡ over * 10 ^ digits }
    ensures rest { result.1 < under }
    ensures most { result.0 ≤ 10 ^ digits }
{
    let mut quotient = over / under;
    let mut rest = over % under;
    for _digit in 0..digits {
        (quotient, rest) = next_digit(quotient, rest, under);
    }
    (quotient, rest)
}
