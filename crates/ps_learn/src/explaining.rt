//! The causes of a conflict, back over the trail.
ghost use Rattle.std.specs.Prelude.{◌≡◌, ◌<◌, ℤ, true, false, take, length, IfOk};
ghost use Rattle.ps_pb.specs.Assignments.{place};
ghost use Rattle.ps_pb.specs.Steps.{known_of};
ghost use Rattle.ps_learn.specs.Trails.{values, values_of, level, IsConflict, AreReasons};
ghost use Rattle.ps_learn.specs.Causes.{is_marked, IsCoveredAt};
ghost use Rattle.ps_learn.specs.Marking.{Grows, AddsFalseAt};
ghost use Rattle.ps_learn.specs.Keeping.{IsKeptOnce, IsToExplain};
ghost use Rattle.ps_learn.specs.Marks.{Explains, ExplainsAt, IsMarkedBefore};
ghost use Rattle.ps_learn.specs.Marks.{IsCaused, IsTrailExplained, AddsTrailReasons, AreCauses};

use crate::entry::TrailEntry;
use crate::marks::{is_marked, mark, mark_causes};
use crate::trail::Trail;
use ps_io::{List, NoMemory};
use ps_pb::{Assignment, Constraint, constraint_at};
use std::alloc::Global;

/// The marked variables are causes, and those of the learned clause are kept.
#[derive(Drop)]
pub(crate) struct Causes {
    pub marks: Vec<bool>,
    pub kept: Vec<bool>,
}

/// Goes back from the conflict, as for the first unique implication point (L. Zhang and others,
/// 2001): a marked literal of level 0, or of the last level with another one marked before it
/// there, is explained by its reason, and each other marked one is kept. So one literal of the last
/// level at most is kept.
pub(crate) fn explain_conflict(
    alloc: Global,
    known: &List<Constraint>,
    trail: &Trail,
    conflict: u64,
) -> Result<Causes, NoMemory>
    requires reasons { AreReasons trail.now.variables (known_of known.now) trail.now.entries }
    requires conflict { IsConflict (known_of known.now) (values trail.now) conflict }
    ensures { IfOk result (AreCauses (known_of known.now) trail.now conflict) }
{
    let mut before = trail.values().copy(alloc)?;
    let mut marks = vec![in alloc; false; before.len()]?;
    let mut kept = vec![in alloc; false; before.len()]?;
    explain_marks(known, trail, conflict, &mut before, &mut marks, &mut kept);
    Ok(Causes { marks, kept })
}

// Marks the causes of the conflict, and explains or keeps them.
fn explain_marks(
    known: &List<Constraint>,
    trail: &Trail,
    conflict: u64,
    before: &mut Assignment,
    marks: &mut [bool],
    kept: &mut [bool],
)
    requires reasons { AreReasons trail.now.variables (known_of known.now) trail.now.entries }
    requires values { before.old ≡ values trail.now }
    requires len { length marks.old ≡ length before.old }
    requires kept_len { length kept.old ≡ length before.old }
    requires unmarked { (l : ℤ) → is_marked marks.old l ≡ false }
    requires unkept { (l : ℤ) → is_marked kept.old l ≡ false }
    ensures caused { IsCaused (known_of known.now) trail.now conflict marks.new kept.new }
    ensures len { length marks.new ≡ length marks.old }
    ensures kept_len { length kept.new ≡ length kept.old }
{
    mark_conflict(known, conflict, before, marks);
    explain_all(known, trail, before, marks, kept);
}

// Marks the causes of the conflict.
#[tactic(auto, using(crate::proofs::Going::one_covered))]
fn mark_conflict(known: &List<Constraint>, conflict: u64, before: &Assignment, marks: &mut [bool])
    requires len { length marks.old ≡ length before.now }
    ensures covered { IsCoveredAt (known_of known.now) conflict before.now marks.new }
    ensures only { AddsFalseAt (known_of known.now) conflict before.now marks.new marks.old }
    ensures len { length marks.new ≡ length marks.old }
{
    if let Some(c) = constraint_at(known, conflict) {
        mark_causes(c, before, marks);
    }
}

// Goes back over all entries.
fn explain_all(
    known: &List<Constraint>,
    trail: &Trail,
    before: &mut Assignment,
    marks: &mut [bool],
    kept: &mut [bool],
)
    requires reasons { AreReasons trail.now.variables (known_of known.now) trail.now.entries }
    requires values { before.old ≡ values trail.now }
    requires len { length marks.old ≡ length before.old }
    requires kept_len { length kept.old ≡ length before.old }
    requires unkept { (l : ℤ) → is_marked kept.old l ≡ false }
    ensures explained { IsTrailExplained (known_of known.now) trail.now marks.new kept.new }
    ensures once { IsKeptOnce trail.now kept.new }
    ensures grows { Grows marks.new marks.old }
    ensures only { AddsTrailReasons (known_of known.now) trail.now kept.new marks.new marks.old }
    ensures len { length marks.new ≡ length marks.old }
    ensures kept_len { length kept.new ≡ length kept.old }
{
    let entries = trail.entries();
    let mut i = entries.len();
    'back: while 0 < i {
        i -= 1;
        let entry = &entries[i];
        before.unset(entry.lit.variable());
        explain(known, trail, i, entry, before, marks, kept);
    }
}

// Whether an entry of the last level is marked before a place.
fn is_marked_before(trail: &Trail, i: usize, marks: &[bool]) -> bool
    requires { i < length trail.now.entries }
    ensures { IsMarkedBefore trail.now marks.now i result }
{
    let entries = trail.entries();
    let level = trail.level();
    let mut j = i;
    'down: while 0 < j {
        j -= 1;
        let entry = &entries[j];
        if entry.level != level {
            return false;
        }
        if is_marked(marks, entry.lit) {
            return true;
        }
    }
    false
}

// Whether an entry stands at level 0, or at the last level after a marked one.
#[tactic(auto, using(crate::proofs::Before::to_explain))]
fn is_to_explain(trail: &Trail, i: usize, entry: &TrailEntry, marks: &[bool]) -> bool
    requires { i < length trail.now.entries }
    ensures { IsToExplain (level trail.now) trail.now.entries marks.now i entry.now result }
{
    if entry.level == 0 {
        return true;
    }
    if entry.level != trail.level() {
        return false;
    }
    is_marked_before(trail, i, marks)
}

// Explains a marked entry, or keeps it.
fn explain(
    known: &List<Constraint>,
    trail: &Trail,
    i: usize,
    entry: &TrailEntry,
    before: &Assignment,
    marks: &mut [bool],
    kept: &mut [bool],
)
    requires within { i < length trail.now.entries }
    requires values { before.now ≡ values_of trail.now.variables (take i trail.now.entries) }
    requires len { length marks.old ≡ length before.now }
    requires kept_len { place entry.now.lit < length kept.old }
    ensures { ExplainsAt known.now trail.now i entry.now
        (marks.old, kept.old) (marks.new, kept.new) }
{
    if !is_marked(marks, entry.lit) {
        return;
    }
    if is_to_explain(trail, i, entry, marks) {
        explain_by_reason(known, entry, before, marks, kept)
    } else {
        mark(kept, entry.lit)
    }
}

// Marks the causes of an entry's reason, or keeps it where it has none.
fn explain_by_reason(
    known: &List<Constraint>,
    entry: &TrailEntry,
    before: &Assignment,
    marks: &mut [bool],
    kept: &mut [bool],
)
    requires len { length marks.old ≡ length before.now }
    requires kept_len { place entry.now.lit < length kept.old }
    requires marked { is_marked marks.old entry.now.lit ≡ true }
    ensures { Explains known.now entry.now true before.now
        (marks.old, kept.old) (marks.new, kept.new) }
{
    match entry.reason {
        None => mark(kept, entry.lit),
        Some(id) => match constraint_at(known, id) {
            None => mark(kept, entry.lit),
            Some(c) => mark_causes(c, before, marks),
        },
    }
}
