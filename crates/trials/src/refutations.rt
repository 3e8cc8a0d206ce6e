//! Refutations, taken by the checker to the end.
ghost use Rattle.std.specs.Prelude.{IsTrue};
ghost use Rattle.ps_pb.specs.Weights.{IsWithin};

use ps_clause::ClauseForm;
use ps_io::NoMemory;
use ps_log::HeldLog;
use ps_pb::{Constraint, Step, Steps, from_weights};
use ps_pbcheck::Checker;
use ps_sat::{MOST_CONFLICTS, Outcome, SearchError, search};
use std::alloc::Global;

/// What became of a form.
#[derive(Clone, Copy, PartialEq, Eq)]
pub enum Ended {
    /// An assignment was found.
    Found,
    /// The checker took each step of the refutation.
    Taken,
    /// It did not, or the search was spent.
    Untaken,
}

/// The goal that everything meets.
pub fn no_goal(alloc: Global) -> Result<Constraint, NoMemory> {
    from_weights(alloc, &[], 0)
}

/// Whether a goal is of so many variables.
pub fn is_within(variables: u32, goal: &Constraint) -> bool
    ensures { IsTrue result → IsWithin variables goal.now }
{
    let variables = variables as usize;
    goal.terms()
        .as_slice()
        .iter()
        .all(|term| term.0.place() < variables)
}

// What the search of a form ends with, and its steps.
fn search_with_steps(
    alloc: Global,
    form: &ClauseForm,
    goal: &Constraint,
) -> Result<(Outcome, Steps), SearchError>
    requires { IsWithin form.now.variables goal.now }
{
    let mut log = HeldLog::new(alloc);
    let outcome = search(alloc, form, goal, MOST_CONFLICTS, &mut log)?;
    Ok((outcome, log.take_steps()))
}

/// Searches a form, and checks the refutation where there is one. The second is the number of steps.
pub fn search_and_check(alloc: Global, form: ClauseForm) -> Result<(Ended, u64), SearchError> {
    let goal = no_goal(alloc)?;
    if !is_within(form.variables(), &goal) {
        return Ok((Ended::Untaken, 0));
    }
    let (outcome, steps) = search_with_steps(alloc, &form, &goal)?;
    let count = steps.as_slice().len() as u64;
    let ended = match outcome {
        Outcome::Found(_) => Ended::Found,
        Outcome::Spent { learned: _ } => Ended::Untaken,
        Outcome::Refuted { last: _ } => {
            if is_taken(alloc, form, goal, steps.as_slice())? {
                Ended::Taken
            } else {
                Ended::Untaken
            }
        }
    };
    Ok((ended, count))
}

// Whether the checker takes all steps, and the form is refuted then.
fn is_taken(
    alloc: Global,
    form: ClauseForm,
    goal: Constraint,
    steps: &[Step],
) -> Result<bool, SearchError> {
    let mut checker = Checker::new(alloc, form, goal)?;
    for step in steps {
        if checker.take(step).is_err() {
            return Ok(false);
        }
    }
    Ok(checker.refuted())
}
