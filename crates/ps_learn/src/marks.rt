//! Marks of variables.
ghost use Rattle.std.specs.Prelude.{◌≡◌, length, true, false, Some, slice_set};
ghost use Rattle.ps_pb.specs.Assignments.{place, value_of};
ghost use Rattle.ps_learn.specs.Causes.{is_marked, AreCovered};
ghost use Rattle.ps_learn.specs.Marking.{Grows, AddsFalseIn};
ghost use Rattle.ps_learn.specs.Marks.{MarksCause};

use ps_pb::{Assignment, Constraint, Lit};

/// Whether a literal's variable is marked. One that is out of range isn't.
pub(crate) fn is_marked(marks: &[bool], lit: Lit) -> bool
    ensures { result ≡ is_marked marks.now lit }
{
    match marks.get(lit.place()) {
        Some(marked) => *marked,
        None => false,
    }
}

/// Marks a literal's variable. Nothing happens where it is out of range.
pub(crate) fn mark(marks: &mut [bool], lit: Lit)
    ensures { marks.new ≡ slice_set marks.old (place lit) true }
{
    let place = lit.place();
    if place < marks.len() {
        marks[place] = true;
    }
}

// Marks a literal that is false.
fn mark_cause(term: &(Lit, i128), before: &Assignment, marks: &mut [bool])
    ensures { MarksCause (value_of before.now term.now.0) term.now.0 marks.old marks.new }
{
    if let Some(false) = before.value_of(term.0) {
        mark(marks, term.0);
    }
}

/// Marks the literals of a constraint that are false.
pub(crate) fn mark_causes(c: &Constraint, before: &Assignment, marks: &mut [bool])
    requires len { length marks.old ≡ length before.now }
    ensures covered { AreCovered c.now before.now marks.new }
    ensures grows { Grows marks.new marks.old }
    ensures only { AddsFalseIn c.now.terms before.now marks.new marks.old }
    ensures len { length marks.new ≡ length marks.old }
{
    for term in c.terms().as_slice() {
        mark_cause(term, before, marks);
    }
}
