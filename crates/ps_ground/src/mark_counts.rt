//! How many marks ground formulas have.
ghost use Rattle.std.specs.Prelude.{◌≡◌, ◌<◌, ◌≤◌, IfOk, length};
ghost use Rattle.ps_first_order.specs.declared.limits.TheConstants.{MOST_CONSTANTS};
ghost use Rattle.ps_first_order.specs.Parts.{AreParts, Fits};
ghost use Rattle.ps_ground.specs.GroundParts.{capped_over, AreCounted, AreCapped};
ghost use Rattle.ps_ground.specs.GroundParts.{capped as least_of};

use crate::limits::MOST_MARKS;
use ps_first_order::{FirstOrderParts, Part};
use ps_io::NoMemory;
use std::alloc::Global;

// One mark more than there may be.
const TOO_MANY: u32 = MOST_MARKS as u32 + 1;

// At most one mark more than there may be.
fn up_to_limit(count: u32) -> u32
    ensures { result ≡ least_of count }
{
    if count < TOO_MANY { count } else { TOO_MANY }
}

// How many marks a part's ground formula has over those of its operands, as far as they count.
fn count_over(constants: u32, counts: &[u32], parts: &FirstOrderParts, part: Part) -> u32
    requires some { 0 < constants }
    requires few { constants ≤ MOST_CONSTANTS }
    requires fits { Fits parts.now (length counts.now) part }
    requires capped { AreCapped counts.now }
    ensures { result ≡ capped_over constants counts.now part }
{
    match part {
        Part::True | Part::False | Part::Holds(_, _, _) => 1,
        Part::Not(operand) => up_to_limit(counts[operand as usize] + 1),
        Part::Joined(_, left, right) => {
            up_to_limit(counts[left as usize] + counts[right as usize] + 1)
        }
        Part::Bound(_, _, body) => up_to_limit(constants * counts[body as usize] + (constants - 1)),
    }
}

/// How many marks each part's ground formula has, as far as they count: one more than `MOST_MARKS`
/// stands for more too.
pub fn counts(alloc: Global, parts: &FirstOrderParts) -> Result<Vec<u32>, NoMemory>
    requires sound { AreParts parts.now }
    ensures { IfOk result (λ v. AreCounted parts.now (length parts.now.parts) v.items) }
{
    let constants = parts.constants.len() as u32;
    let mut counts = Vec::new(alloc);
    for part in parts.parts.as_slice() {
        let count = count_over(constants, &counts, parts, *part);
        counts.push(count)?;
    }
    Ok(counts)
}
