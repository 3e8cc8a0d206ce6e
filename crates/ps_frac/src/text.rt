//! The text of a decimal.
ghost use Rattle.std.specs.Prelude.{◌≡◌, ◌+◌, ◌/◌, ◌%◌, ◌^◌, ◌<◌, ◌≤◌, ◌++◌, ◌∷◌, [], OnOk};
ghost use Rattle.ps_frac.specs.Decimals.{last_digits, text_of};
ghost use Rattle.ps_frac.specs.declared.limits.TheConstants.{MOST_DIGITS};

use crate::decimal::Decimal;
use ps_io::NoMemory;

// Writes one byte.
fn byte(out: &mut Vec<u8>, b: u8) -> Result<(), NoMemory>
    ensures { OnOk result (out.new.items ≡ out.old.items ++ b ∷ []) }
{
    out.push(b)?;
    Ok(())
}

// Writes the last digit of a number.
fn digit(out: &mut Vec<u8>, n: u64) -> Result<(), NoMemory>
    ensures { OnOk result (out.new.items ≡ out.old.items ++ (48 + n % 10) ∷ []) }
{
    byte(out, b'0' + (n % 10) as u8)
}

// Writes the last digits of a number, so many; `scale` is ten to that many.
fn digits(out: &mut Vec<u8>, n: u64, count: u32, scale: u64) -> Result<(), NoMemory>
    requires few { count ≤ MOST_DIGITS }
    requires scale { scale ≡ 10 ^ count }
    ensures { OnOk result (out.new.items ≡ out.old.items ++ last_digits count n) }
{
    let mut place = scale;
    for _written in 0..count {
        place /= 10;
        digit(out, n / place)?;
    }
    Ok(())
}

// Ten to so many.
#[tactic(auto, using(crate::specs::Powers::ten_to_is_positive))]
fn ten_to(count: u32) -> u64
    requires few { count ≤ MOST_DIGITS }
    ensures power { result ≡ 10 ^ count }
    ensures positive { 0 < result }
{
    10u64.pow(count)
}

impl Decimal {
    /// Writes the decimal behind what was written: a digit, a point, and as many digits as it has.
    #[tactic(auto, unfolding(crate::specs::Decimals::text_of))]
    pub fn write(&self, out: &mut Vec<u8>) -> Result<(), NoMemory>
        ensures { OnOk result (out.new.items ≡ out.old.items ++ text_of self.now) }
    {
        let (units, count) = self.parts();
        let scale = ten_to(count);
        byte(out, b'0' + (units / scale) as u8)?;
        byte(out, b'.')?;
        digits(out, units, count, scale)
    }
}
