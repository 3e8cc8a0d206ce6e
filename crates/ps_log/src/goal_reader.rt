//! Goals that are read.
ghost use Rattle.std.specs.Prelude.{ℕ, Ok, Err};
ghost use Rattle.ps_pb.specs.Constraints.{Constraint as Linear};
ghost use Rattle.ps_log.specs.declared.line_error.LineError.{LineError as Refusal};
ghost use Rattle.ps_log.specs.Limits.{IsGoalWithin};
ghost use Rattle.ps_log.specs.FirstLines.{Gives, IsLineAnswer};
ghost use Rattle.ps_log.specs.GoalTexts.{IsGoalText};
ghost use Rattle.ps_log.specs.GoalTexts.{HasGoal, IsGoalAnswer, IsGoalRefused};

use crate::goal_parts::GoalParts;
use crate::lettered::{after_letter, are_text_bytes};
use crate::line_error::LineError;
use crate::long_lines::long_goal;
use crate::rising::variables_rise;
use crate::words::{first_line, numbers};
use ps_io::LONGEST_LINE;
use ps_pb::Constraint;
use std::alloc::Global;

/// Reads the goal whose line stands at the front, and says how many bytes that line has with its
/// line feed. Of a line that is longer than each within the limits no number is kept.
pub fn read_goal(alloc: Global, bytes: &[u8]) -> Result<(Constraint, u64), LineError>
    ensures answer { IsGoalAnswer bytes.now result }
    ensures taken { (g : Linear) (n : ℕ) → HasGoal bytes.now g n → Gives result (Ok (g, n)) }
    ensures refused { (why : Refusal) → IsGoalRefused bytes.now why → Gives result (Err why) }
{
    let line = match first_line(bytes) {
        Some(line) => line,
        None => return Err(LineError::Truncated),
    };
    if !are_text_bytes(line, b'g') {
        return Err(LineError::BadByte);
    }
    match goal_of(alloc, line) {
        Ok(goal) => Ok((goal, line.len() as u64 + 1)),
        Err(why) => Err(why),
    }
}

fn goal_of(alloc: Global, line: &[u8]) -> Result<Constraint, LineError>
    ensures { IsLineAnswer IsGoalText IsGoalWithin line.now result }
{
    let text = match after_letter(line, b'g') {
        Some(text) => text,
        None => return Err(LineError::NotCanonical),
    };
    if LONGEST_LINE <= line.len() {
        return long_goal(line, text);
    }
    let numbers = match numbers(alloc, text)? {
        Some(numbers) => numbers,
        None => return Err(LineError::NotCanonical),
    };
    let parts = match GoalParts::of(numbers.as_slice()) {
        Some(parts) => parts,
        None => return Err(LineError::NotCanonical),
    };
    if !variables_rise(text) {
        return Err(LineError::NotCanonical);
    }
    parts.goal(alloc)
}
