//! Lines of steps and goals.
ghost use Rattle.std.specs.Prelude.{◌≡◌};
ghost use Rattle.ps_answer.specs.declared.part.Part.TheVariants.{AStep, AGoal};
ghost use Rattle.ps_reader.specs.Texts.{IsFirstItemRead, fault_of};

use crate::line_fault::LineFault;
use ps_answer::LineItem;
use ps_log::{LineError, read_goal, read_step};
use std::alloc::Global;

/// The step whose line stands at the front.
pub(crate) fn step(alloc: Global, bytes: &[u8]) -> Result<LineItem, LineFault>
    ensures { IsFirstItemRead AStep bytes.now result }
{
    match read_step(alloc, bytes) {
        Ok((step, _)) => Ok(LineItem::StepLine { step }),
        Err(why) => Err(fault_of(why)),
    }
}

/// The goal whose line stands at the front.
pub(crate) fn goal(alloc: Global, bytes: &[u8]) -> Result<LineItem, LineFault>
    ensures { IsFirstItemRead AGoal bytes.now result }
{
    match read_goal(alloc, bytes) {
        Ok((goal, _)) => Ok(LineItem::GoalLine { goal }),
        Err(why) => Err(fault_of(why)),
    }
}

// A byte that no such line has makes it no such line.
fn fault_of(why: LineError) -> LineFault
    ensures { result ≡ fault_of why }
{
    match why {
        LineError::Truncated => LineFault::NotCanonical,
        LineError::BadByte => LineFault::NotCanonical,
        LineError::NotCanonical => LineFault::NotCanonical,
        LineError::TooLarge => LineFault::TooLarge,
        LineError::NoMemory => LineFault::NoMemory,
    }
}
