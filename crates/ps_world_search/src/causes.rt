//! The false literals because of which a literal was set, or because of which there is a conflict.

use crate::clauses::Clauses;
use crate::goal_sum::{GoalSum, Term};
use crate::lit::Lit;
use crate::trail::{Reason, Trail, Value};
use std::alloc::AllocError;

/// What is set, and why.
#[derive(Clone, Copy)]
pub(crate) struct Scene<'s> {
    pub(crate) trail: &'s Trail,
    pub(crate) clauses: &'s Clauses,
    pub(crate) goal: &'s GoalSum,
}

/// Writes the causes of a reason, beside the literal that it forces.
pub(crate) fn write_causes(
    at: Scene<'_>,
    reason: Reason,
    forced: Option<Lit>,
    causes: &mut Vec<Lit>,
) -> Result<(), AllocError> {
    causes.clear();
    match reason {
        Reason::Chosen => {}
        Reason::Clause(number) => {
            for lit in at.clauses.lits(number) {
                if Some(*lit) != forced {
                    causes.push(*lit)?;
                }
            }
        }
        Reason::Goal => write_goal_causes(at, forced, causes)?,
    }
    Ok(())
}

// Literals of the goal that were false before and sum to enough: those that were set before any decision
// count first, then the largest ones.
fn write_goal_causes(
    at: Scene<'_>,
    forced: Option<Lit>,
    causes: &mut Vec<Lit>,
) -> Result<(), AllocError> {
    let room = at.goal.room_beside(forced);
    let before = match forced {
        Some(lit) => at.trail.standing(lit).place,
        None => at.trail.len(),
    };
    let sum = add_causes(at, true, before, room, 0, causes)?;
    add_causes(at, false, before, room, sum, causes)?;
    Ok(())
}

// Adds the causes that were set before any decision, or the others, until they sum to more than so much.
fn add_causes(
    at: Scene<'_>,
    is_known: bool,
    before: usize,
    room: i128,
    sum: i128,
    causes: &mut Vec<Lit>,
) -> Result<i128, AllocError> {
    let mut sum = sum;
    for term in at.goal.terms() {
        if sum > room {
            break;
        }
        if is_cause(at, *term, is_known, before) {
            sum = sum.wrapping_add(term.coefficient);
            causes.push(term.lit)?;
        }
    }
    Ok(sum)
}

// Whether a term's literal was false before a place, by a decision or without one.
fn is_cause(at: Scene<'_>, term: Term, is_known: bool, before: usize) -> bool {
    if at.trail.value(term.lit) != Value::False {
        return false;
    }
    let standing = at.trail.standing(term.lit);
    standing.place < before && (standing.level == 0) == is_known
}
