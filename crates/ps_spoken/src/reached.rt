//! Between which numbers the bounds of a query lie that aren't known, for people.
ghost use Rattle.std.specs.Prelude.{◌<◌, ◌≤◌};
ghost use Rattle.ps_frac.specs.declared.limits.TheConstants.{MOST_DIGITS};
ghost use Rattle.ps_spoken.specs.Numbers.{Says};
ghost use Rattle.ps_spoken.specs.Reached.{lower_between, upper_between};

use crate::numbers::{append, high, low};
use ps_frac::Fraction;
use ps_io::NoMemory;

/// Values of a query in distributions that meet all sentences: the least and the greatest one that
/// is known. Its lower bound is at most the least one, and its upper bound at least the greatest.
#[derive(Clone, Copy, PartialEq, Debug, Drop)]
pub struct Reached {
    /// The least one.
    pub least: Fraction,
    /// The greatest one.
    pub greatest: Fraction,
}

/// Writes between which numbers a lower bound lies that isn't known.
pub(crate) fn write_lower_between(
    out: &mut Vec<u8>,
    reached: &Option<Reached>,
    digits: u32,
) -> Result<(), NoMemory>
    requires some { 0 < digits }
    requires few { digits ≤ MOST_DIGITS }
    ensures { Says result out.old.items out.new.items (lower_between digits reached.now) }
{
    match reached {
        Some(known) => {
            append(out, b"lower bound between 0 (proved) and ")?;
            high(out, &known.least, digits)?;
            append(out, b" (reached)")
        }
        None => append(out, b"lower bound at least 0 (proved)"),
    }
}

/// Writes between which numbers an upper bound lies that isn't known.
pub(crate) fn write_upper_between(
    out: &mut Vec<u8>,
    reached: &Option<Reached>,
    digits: u32,
) -> Result<(), NoMemory>
    requires some { 0 < digits }
    requires few { digits ≤ MOST_DIGITS }
    ensures { Says result out.old.items out.new.items (upper_between digits reached.now) }
{
    match reached {
        Some(known) => {
            append(out, b"upper bound between ")?;
            low(out, &known.greatest, digits)?;
            append(out, b" (reached) and 1 (proved)")
        }
        None => append(out, b"upper bound at most 1 (proved)"),
    }
}
