//! Propagation by watched literals, beside passes over all constraints.
ghost use Rattle.std.specs.Prelude.{◌≡◌, IsTrue, IfOk, OnOk, IfSome, IfNone};
ghost use Rattle.ps_learn.specs.Trails.{values, decided, IsFresh};
ghost use Rattle.ps_pb.specs.Weights.{IsWithin};
ghost use Rattle.ps_sat.specs.Keeping.{IsInStep, HasSeenLower};

use crate::draw::Draw;
use crate::forms::{add, are_different, are_within, literal};
use crate::refutations::{is_within, no_goal};
use ps_clause::ClauseForm;
use ps_io::NoMemory;
use ps_learn::Trail;
use ps_pb::{Assignment, Constraint, Effect, Lit, from_weights, propagate, sizes_fit, slack};
use ps_sat::Kept;
use std::alloc::Global;

/// So many variables a case has.
const VARIABLES: u32 = 12;

/// So many decisions, cuts and clauses a case has at most.
const MOVES: u32 = 40;

/// So much the weights of a goal sum to at most.
const MOST_SUM: u128 = 1_000;

// One to four drawn literals.
fn drawn_literals(alloc: Global, draw: &mut Draw) -> Result<Vec<Lit>, NoMemory> {
    let mut lits = Vec::new(alloc);
    let count = match draw.below(8) {
        0 => 1,
        1 | 2 => 2,
        3 | 4 => 4,
        _ => 3,
    };
    for _ in 0..count {
        lits.push(literal(draw, VARIABLES))?;
    }
    Ok(lits)
}

// A goal of six drawn literals with weights from 1 to 9.
fn drawn_goal(alloc: Global, draw: &mut Draw) -> Result<Constraint, NoMemory> {
    let mut weights = Vec::new(alloc);
    for _ in 0..6 {
        weights.push((literal(draw, VARIABLES), 1 + draw.below(9) as i128))?;
    }
    let least = draw.below(20) as i128;
    if !sizes_fit(&weights, &least, MOST_SUM) {
        return no_goal(alloc);
    }
    from_weights(alloc, &weights, least)
}

// A form of thirty clauses at most.
fn drawn_form(alloc: Global, draw: &mut Draw) -> Result<ClauseForm, NoMemory> {
    let mut form = ClauseForm::new(alloc, VARIABLES);
    for _ in 0..30 {
        let lits = drawn_literals(alloc, draw)?;
        add(&mut form, &lits)?;
    }
    Ok(form)
}

// What all constraints force is set. Whether none of them was violated.
fn pass_over(known: &[Constraint], values: &mut Assignment) -> Option<bool> {
    let mut forced = false;
    for constraint in known {
        match propagate(constraint, values) {
            Effect::Violated => return None,
            Effect::Forced => forced = true,
            Effect::Idle => {}
        }
    }
    Some(forced)
}

// The values after these decisions and all that follows from them by passes over all constraints;
// `None` where one is violated.
fn values_by_passes(
    alloc: Global,
    known: &[Constraint],
    decided: &[Lit],
) -> Result<Option<Assignment>, NoMemory> {
    let mut values = Assignment::new(alloc, VARIABLES)?;
    for lit in decided {
        values.set(*lit);
    }
    for _ in 0..VARIABLES + 1 {
        match pass_over(known, &mut values) {
            None => return Ok(None),
            Some(false) => return Ok(Some(values)),
            Some(true) => {}
        }
    }
    Ok(None)
}

// Whether the trail has these values.
fn has_values(trail: &Trail, values: &Assignment) -> bool {
    (1..VARIABLES + 1).all(|var| trail.value(var) == values.value(var))
}

// Whether propagation answered, and set, what passes over all constraints do.
fn is_as_passed(
    alloc: Global,
    kept: &Kept,
    trail: &Trail,
    decided: &[Lit],
    is_violated: bool,
) -> Result<bool, NoMemory> {
    Ok(
        match values_by_passes(alloc, kept.known().as_slice(), decided)? {
            None => is_violated,
            Some(values) => !is_violated && has_values(trail, &values),
        },
    )
}

// Whether a literal is of a variable that is unset.
fn is_fresh(trail: &Trail, lit: Lit) -> bool
    ensures { IsTrue result → IsFresh trail.now.variables (values trail.now) lit }
{
    lit.place() < trail.variables() as usize && trail.values().value_of(lit).is_none()
}

// Whether the kept slack is the sum that is made anew over the trail.
fn has_slack(kept: &Kept, goal: &Constraint, trail: &Trail) -> bool {
    kept.slack_now() == slack(goal, trail.values())
}

// Decides on a literal of an unset variable, where a few draws find such.
fn decide_one(draw: &mut Draw, trail: &mut Trail) -> Option<Lit>
    ensures some { IfSome result (λ lit. trail.new ≡ decided lit trail.old) }
    ensures none { IfNone result (trail.new ≡ trail.old) }
{
    let lit = literal(draw, VARIABLES);
    let other = literal(draw, VARIABLES);
    if is_fresh(trail, lit) {
        trail.decide(lit);
        return Some(lit);
    }
    if is_fresh(trail, other) {
        trail.decide(other);
        return Some(other);
    }
    None
}

// Learns a drawn clause, where its literals are of different variables.
fn learn_one(alloc: Global, draw: &mut Draw, kept: &mut Kept, trail: &Trail) -> Result<(), NoMemory>
    requires { trail.now.variables ≡ kept.old.variables }
    ensures variables { OnOk result (kept.new.variables ≡ kept.old.variables) }
    ensures seen { OnOk result (kept.new.seen ≡ kept.old.seen) }
{
    let lits = drawn_literals(alloc, draw)?;
    if are_within(trail.variables(), &lits) && are_different(&lits) {
        kept.learn(&lits)?;
    }
    Ok(())
}

// Goes back to a drawn level below the present one, and perhaps learns a clause before. Some says
// whether all was as it is to be where the case ends.
fn go_back(
    alloc: Global,
    draw: &mut Draw,
    kept: &mut Kept,
    goal: &Constraint,
    trail: &mut Trail,
    decided: &mut Vec<Lit>,
) -> Result<Option<bool>, NoMemory>
    requires variables { trail.old.variables ≡ kept.old.variables }
    requires lower { HasSeenLower kept.old trail.old }
    ensures variables { OnOk result (trail.new.variables ≡ kept.new.variables) }
    ensures in_step { IfOk result (λ ended. IfNone ended (IsInStep kept.new trail.new)) }
{
    let present = trail.level();
    if present == 0 {
        return Ok(Some(true));
    }
    let most = draw.below(present as u64) as u32;
    if draw.coin() {
        learn_one(alloc, draw, kept, trail)?;
    }
    kept.cut_to(trail, most);
    decided.truncate(most as usize);
    if !has_slack(kept, goal, trail) {
        return Ok(Some(false));
    }
    Ok(None)
}

// Propagates, and then decides or goes back. Some says whether all was as it is to be where the
// case ends.
fn make_move(
    alloc: Global,
    draw: &mut Draw,
    kept: &mut Kept,
    goal: &Constraint,
    trail: &mut Trail,
    decided: &mut Vec<Lit>,
) -> Result<Option<bool>, NoMemory>
    requires variables { trail.old.variables ≡ kept.old.variables }
    requires in_step { IsInStep kept.old trail.old }
    ensures variables { OnOk result (trail.new.variables ≡ kept.new.variables) }
    ensures in_step { IfOk result (λ ended. IfNone ended (IsInStep kept.new trail.new)) }
{
    match kept.propagate(trail) {
        Some(_) => {
            if !is_as_passed(alloc, kept, trail, decided, true)? {
                return Ok(Some(false));
            }
            go_back(alloc, draw, kept, goal, trail, decided)
        }
        None => {
            if !is_as_passed(alloc, kept, trail, decided, false)? || !has_slack(kept, goal, trail) {
                return Ok(Some(false));
            }
            match decide_one(draw, trail) {
                Some(lit) => decided.push(lit)?,
                None => return go_back(alloc, draw, kept, goal, trail, decided),
            }
            Ok(None)
        }
    }
}

// Whether each propagation after so many moves is as by passes, and the slack as a sum that is made
// anew.
fn are_moves_alike(
    alloc: Global,
    draw: &mut Draw,
    kept: &mut Kept,
    goal: &Constraint,
    trail: &mut Trail,
) -> Result<bool, NoMemory>
    requires variables { trail.old.variables ≡ kept.old.variables }
    requires in_step { IsInStep kept.old trail.old }
{
    let mut decided = Vec::new(alloc);
    for _ in 0..MOVES {
        if let Some(alike) = make_move(alloc, draw, kept, goal, trail, &mut decided)? {
            return Ok(alike);
        }
    }
    Ok(true)
}

// Whether the moves over a form and a goal are.
fn is_alike_over(
    alloc: Global,
    draw: &mut Draw,
    form: &ClauseForm,
    goal: &Constraint,
) -> Result<bool, NoMemory>
    requires { IsWithin form.now.variables goal.now }
{
    let mut kept = Kept::new(alloc, form, goal)?;
    let mut trail = Trail::new(alloc, form.variables())?;
    are_moves_alike(alloc, draw, &mut kept, goal, &mut trail)
}

// Whether those of a drawn case are.
fn is_alike(alloc: Global, draw: &mut Draw) -> Result<bool, NoMemory> {
    let form = drawn_form(alloc, draw)?;
    let goal = drawn_goal(alloc, draw)?;
    if !is_within(form.variables(), &goal) {
        return Ok(false);
    }
    is_alike_over(alloc, draw, &form, &goal)
}

/// How many of so many cases of decisions, cuts and learned clauses propagate as passes over all
/// constraints do, and keep the slack as a sum that is made anew.
pub fn propagations(alloc: Global, cases: u32) -> Result<u32, NoMemory> {
    let mut alike = 0u32;
    for case in 0..cases {
        let mut draw = Draw::new(case as u64);
        if is_alike(alloc, &mut draw)? {
            alike = alike.wrapping_add(1);
        }
    }
    Ok(alike)
}
