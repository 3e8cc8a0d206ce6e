//! The first reason against an assignment and its cost.
ghost use Rattle.std.specs.Prelude.{◌≡◌, ◌≤◌, length};
ghost use Rattle.ps_max_answer.specs.Answers.{first_missed, assignment_fault};
ghost use Rattle.ps_wcnf.specs.Limits.{IsText};

use crate::max_error::MaxError;
use ps_formula::World;
use ps_pb::Lits;
use ps_wcnf::{WcnfText, meets, weigh};

fn first_missed(values: &[bool], hard: &[Lits]) -> Option<u32>
    requires { length hard.now ≤ 1000000 }
    ensures { result ≡ first_missed values.now 1 hard.now }
{
    for i in 0..hard.len() {
        if !meets(values, hard[i].as_slice()) {
            return Some(i as u32 + 1);
        }
    }
    None
}

/// The first reason against an assignment and its cost.
pub(crate) fn assignment_fault(text: &WcnfText, cost: i128, assignment: &World) -> Option<MaxError>
    requires { IsText text.now }
    ensures { result ≡ assignment_fault text.now cost assignment.now }
{
    if assignment.len() != text.variables as usize {
        return Some(MaxError::WrongShape);
    }
    if let Some(clause) = first_missed(assignment.as_slice(), text.hard.as_slice()) {
        return Some(MaxError::HardMissed { clause });
    }
    if cost != weigh(assignment.as_slice(), text.soft.as_slice()).0 {
        return Some(MaxError::CostWrong);
    }
    None
}
