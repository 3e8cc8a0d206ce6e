//! The check of answers.
ghost use Rattle.std.specs.Prelude.{◌≡◌, ◌≤ℤ◌, ◌^◌, pos, IfOk};
ghost use Rattle.ps_wcnf.specs.Limits.{IsText};
ghost use Rattle.ps_max_answer.specs.Answers.{steps_fault, fault_of, AnswersMax, IsShown, IsCounted};

use crate::answer::MaxAnswer;
use crate::judging::assignment_fault;
use crate::max_error::MaxError;
use crate::running::first_refused;
use ps_io::NoMemory;
use ps_pb::{Step, from_weights};
use ps_pbcheck::Checker;
use ps_valid::Accepted;
use ps_wcnf::{WcnfText, check_text, valued_form, weigh};
use std::alloc::Global;

// The first reason against steps that are to refute the goal of a value of at least so much.
fn steps_fault(
    alloc: Global,
    text: &WcnfText,
    least: i128,
    steps: &[Step],
) -> Result<Option<MaxError>, NoMemory>
    requires text { IsText text.now }
    requires low { pos 1 ≤ℤ least }
    requires high { least ≤ℤ pos (2 ^ 91) }
    ensures { IfOk result (λ o. o ≡ steps_fault text.now least steps.now) }
{
    let form = valued_form(alloc, text)?;
    let goal = from_weights(alloc, form.literals.as_slice(), least - form.base)?;
    let mut checker = Checker::new(alloc, form.clauses, goal)?;
    if let Some((step, why)) = first_refused(&mut checker, steps)? {
        return Ok(Some(MaxError::StepRefused { step, why }));
    }
    if checker.refuted() {
        Ok(None)
    } else {
        Ok(Some(MaxError::NotRefuted))
    }
}

// The first reason against an answer.
fn fault_of(
    alloc: Global,
    text: &WcnfText,
    answer: &MaxAnswer,
) -> Result<Option<MaxError>, NoMemory>
    requires { IsText text.now }
    ensures { IfOk result (λ o. o ≡ fault_of text.now answer.now) }
{
    match answer {
        MaxAnswer::Optimum {
            cost,
            assignment,
            steps,
        } => {
            if let Some(fault) = assignment_fault(text, *cost, assignment) {
                return Ok(Some(fault));
            }
            let weights = weigh(assignment.as_slice(), text.soft.as_slice());
            steps_fault(alloc, text, 2 + weights.1, steps.as_slice())
        }
        MaxAnswer::Unsatisfiable { steps } => steps_fault(alloc, text, 1, steps.as_slice()),
        MaxAnswer::Open { .. } => Ok(None),
    }
}

// How much an answer claims.
fn counts_of(answer: &MaxAnswer) -> Accepted
    ensures { IsCounted answer.now result }
{
    match answer {
        MaxAnswer::Open { .. } => Accepted {
            claims: 0,
            unfinished: 1,
        },
        _ => Accepted {
            claims: 1,
            unfinished: 0,
        },
    }
}

/// Accepts an answer against which no reason is, and answers the first reason else: the assignment
/// is not as long as the variables; a hard clause has no true literal; the cost is another; a step
/// isn't lawful; or the steps refute nothing. What an accepted answer says is so.
pub fn check_max(alloc: Global, text: &WcnfText, answer: &MaxAnswer) -> Result<Accepted, MaxError>
    requires { IsText text.now }
    ensures judged { AnswersMax (fault_of text.now answer.now) result }
    ensures shown { IfOk result (λ a. IsShown text.now answer.now) }
    ensures counted { IfOk result (IsCounted answer.now) }
{
    check_text(text);
    if let Some(fault) = fault_of(alloc, text, answer)? {
        return Err(fault);
    }
    Ok(counts_of(answer))
}
