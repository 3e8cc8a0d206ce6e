//! How the canonical spellings of ground formulas nest.
ghost use Rattle.std.specs.Prelude.{◌≡◌, ◌<◌, ◌≤◌, ◌+◌, IfOk, length, max, min, slice_index_or};
ghost use Rattle.ps_first_order.specs.declared.limits.TheConstants.{MOST_CONSTANTS};
ghost use Rattle.ps_text.specs.Canonical.{parenthesis};
ghost use Rattle.ps_first_order.specs.Parts.{AreParts, Fits};
ghost use Rattle.ps_ground.specs.Spellings.{most_of, at_level, joined_spelling, bound_spelling};
ghost use Rattle.ps_ground.specs.Spellings.{spelling_over, IsSmall, AreSmall, AreSpelled, IsDepthOf};

use ps_first_order::{Connective, FirstOrderParts, Part, Quantifier};
use ps_io::NoMemory;
use ps_problem::MOST_NESTING;
use std::alloc::Global;

// One nesting more than there may be.
const TOO_DEEP: u32 = MOST_NESTING as u32 + 1;

/// How a formula's canonical spelling stands: how tightly it binds, from 1 for `<->` to 5, and how
/// deep it nests, one more than `MOST_NESTING` for more.
#[derive(Clone, Copy, Debug, PartialEq, Eq)]
pub struct Spelling {
    /// How tightly it binds.
    pub level: u8,
    /// How deep it nests.
    pub depth: u32,
}

// The spelling of what stands alone.
const ALONE: Spelling = Spelling { level: 5, depth: 0 };

// A depth, as far as it counts.
fn most(depth: u32) -> u32
    ensures { result ≡ most_of depth }
{
    depth.min(TOO_DEEP)
}

impl Spelling {
    // How deep it nests where an operand of this level is required.
    fn depth_at(self, required: u8) -> u32
        requires small { IsSmall self }
        ensures depth { result ≡ at_level required self }
        ensures small { result ≤ TOO_DEEP + 1 }
    {
        if self.level < required {
            self.depth + 1
        } else {
            self.depth
        }
    }
}

// The spelling of two formulas, joined by a connective.
fn join_spellings(connective: Connective, left: Spelling, right: Spelling) -> Spelling
    requires left { IsSmall left }
    requires right { IsSmall right }
    ensures { result ≡ joined_spelling connective left right }
{
    match connective {
        Connective::And => Spelling {
            level: 4,
            depth: most(left.depth_at(4).max(right.depth_at(5))),
        },
        Connective::Or => Spelling {
            level: 3,
            depth: most(left.depth_at(3).max(right.depth_at(4))),
        },
        Connective::Implies => Spelling {
            level: 2,
            depth: most(left.depth_at(3).max(right.depth_at(2) + 1)),
        },
        Connective::Iff => Spelling {
            level: 1,
            depth: most(left.depth_at(1).max(right.depth_at(2))),
        },
    }
}

// The spelling of a formula for each of so many constants, joined.
fn bound(constants: u32, quantifier: Quantifier, body: Spelling) -> Spelling
    requires { IsSmall body }
    ensures { result ≡ bound_spelling constants quantifier body }
{
    if constants == 1 {
        return body;
    }
    match quantifier {
        Quantifier::ForAll => Spelling {
            level: 4,
            depth: most(body.depth_at(5)),
        },
        Quantifier::Exists => Spelling {
            level: 3,
            depth: most(body.depth_at(4)),
        },
    }
}

// The spelling of a part's ground formula over those of its operands.
fn spelling_over(
    constants: u32,
    spellings: &[Spelling],
    parts: &FirstOrderParts,
    part: Part,
) -> Spelling
    requires fits { Fits parts.now (length spellings.now) part }
    requires small { AreSmall spellings.now }
    ensures { result ≡ spelling_over constants spellings.now part }
{
    match part {
        Part::True | Part::False | Part::Holds(_, _, _) => ALONE,
        Part::Not(operand) => Spelling {
            level: 5,
            depth: most(spellings[operand as usize].depth_at(5) + 1),
        },
        Part::Joined(connective, left, right) => join_spellings(
            connective,
            spellings[left as usize],
            spellings[right as usize],
        ),
        Part::Bound(quantifier, _, body) => {
            bound(constants, quantifier, spellings[body as usize])
        }
    }
}

// The spelling of a part.
fn spelling_at(spellings: &[Spelling], part: u32) -> Spelling
    requires there { part < length spellings.now }
    ensures { result ≡ slice_index_or spellings.now part result }
{
    spellings[part as usize]
}

/// How deep the canonical spelling of a part's ground formula nests, one more than `MOST_NESTING`
/// for more, where the spellings are those of `spellings`.
pub fn nesting(parts: &FirstOrderParts, spellings: &[Spelling], part: u32) -> u32
    requires sound { AreParts parts.now }
    requires spelled { AreSpelled parts.now (length parts.now.parts) spellings.now }
    requires there { part < length parts.now.parts }
    ensures { IsDepthOf parts.now part result }
{
    let _parts = parts;
    let spelling = spelling_at(spellings, part);
    spelling.depth
}

/// The spelling of each part's ground formula.
pub fn spellings(alloc: Global, parts: &FirstOrderParts) -> Result<Vec<Spelling>, NoMemory>
    requires sound { AreParts parts.now }
    ensures { IfOk result (λ v. AreSpelled parts.now (length parts.now.parts) v.items) }
{
    let constants = parts.constants.len() as u32;
    let mut spellings = Vec::new(alloc);
    for part in parts.parts.as_slice() {
        let spelling = spelling_over(constants, &spellings, parts, *part);
        spellings.push(spelling)?;
    }
    Ok(spellings)
}
