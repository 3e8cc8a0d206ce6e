//! Ground formulas in drafts of problems.
ghost use Rattle.std.specs.Prelude.{◌≡◌, ◌<◌, ◌≤◌, ◌+◌, [], OnOk, IfOk, length};
ghost use Rattle.ps_problem.specs.declared.limits.TheConstants.{MOST_DRAFTED};
ghost use Rattle.ps_ground.specs.Drafting.{taken_by, IsNamed, AreDraftable, IsMarked, HasFormula};

use crate::mark::GroundMark;
use ps_first_order::Connective;
use ps_io::NoMemory;
use ps_problem::{Draft, Mark};

// Adds a mark to the formula that is being made.
fn add(draft: &mut Draft, mark: &GroundMark) -> Result<(), NoMemory>
    requires named { IsNamed mark.now }
    requires operands { taken_by mark.now ≤ length draft.old.«open» }
    requires room { length draft.old.names < MOST_DRAFTED }
    ensures { OnOk result (IsMarked draft.old mark.now draft.new) }
{
    match mark {
        GroundMark::True => draft.mark(Mark::True),
        GroundMark::False => draft.mark(Mark::False),
        GroundMark::Name(name) => {
            let number = draft.name(name.as_slice())?;
            draft.mark(Mark::Name(number))
        }
        GroundMark::Not => draft.mark(Mark::Not),
        GroundMark::Joined(Connective::And) => draft.mark(Mark::And),
        GroundMark::Joined(Connective::Or) => draft.mark(Mark::Or),
        GroundMark::Joined(Connective::Implies) => draft.mark(Mark::Implies),
        GroundMark::Joined(Connective::Iff) => draft.mark(Mark::Iff),
    }
}

/// Adds the formula of some marks to a draft, and gives its number.
pub fn draft_formula(draft: &mut Draft, marks: &[GroundMark]) -> Result<u32, NoMemory>
    requires marks { AreDraftable marks.now }
    requires closed { draft.old.«open» ≡ [] }
    requires names { length draft.old.names + length marks.now ≤ MOST_DRAFTED }
    requires room { length draft.old.formulas < MOST_DRAFTED }
    ensures { IfOk result (λ n. HasFormula draft.old marks.now n draft.new) }
{
    for mark in marks {
        add(draft, mark)?;
    }
    draft.end_formula()
}
