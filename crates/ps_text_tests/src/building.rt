//! A problem and its numbers, worked out by hand, and the most bounds of one.
ghost use Rattle.std.specs.Prelude.{◌≡◌, [], IfOk, OnOk, length};

use ps_io::NoMemory;
use ps_problem::{Bound, BoundAt, BuildError, Draft, Mark, Problem, Query, Side, build};
use std::alloc::Global;
use std::test::Fail;

// Adds the formulas `b` and `!a`.
fn add_formulas(draft: &mut Draft) -> Result<(), NoMemory>
    requires { draft.old ≡ record { names = []; «open» = []; formulas = []; items = [] } }
    ensures formulas { OnOk result (length draft.new.formulas ≡ 2) }
    ensures items { OnOk result (length draft.new.items ≡ 0) }
{
    let b = draft.name(b"b")?;
    draft.mark(Mark::Name(b))?;
    draft.end_formula()?;
    let a = draft.name(b"a")?;
    draft.mark(Mark::Name(a))?;
    draft.mark(Mark::Not)?;
    draft.end_formula()?;
    Ok(())
}

// The draft with the formulas `b` and `!a`, and no items.
fn formulas(alloc: Global) -> Result<Draft, NoMemory>
    ensures formulas { IfOk result (λ d. length d.formulas ≡ 2) }
    ensures items { IfOk result (λ d. length d.items ≡ 0) }
{
    let mut draft = Draft::new(alloc);
    add_formulas(&mut draft)?;
    Ok(draft)
}

// Adds `query P(b); P(!a given b) in [1/4, 1/2]; P(!a) >= 1/2;`.
fn add_items(draft: &mut Draft) -> Result<(), NoMemory>
    requires formulas { length draft.old.formulas ≡ 2 }
    requires items { length draft.old.items ≡ 0 }
{
    draft.query(0, None)?;
    draft.sentence(1, Some(0), Side::AtLeast, 1, 4, Some((1, 2)))?;
    draft.sentence(1, None, Side::AtLeast, 1, 2, None)
}

// The problem of those formulas and items.
fn a_problem(alloc: Global) -> Result<Problem, BuildError> {
    let mut draft = formulas(alloc)?;
    add_items(&mut draft)?;
    build(alloc, &draft)
}

// A bound with a value `1/den`.
fn bound(formula: u32, given: Option<u32>, both: u32, side: Side, den: u32) -> Bound {
    Bound {
        formula,
        given,
        both,
        side,
        num: 1,
        den,
    }
}

// Whether the bound of a number is this plain one.
fn has_bound(problem: &Problem, number: u32, bound: Bound) -> bool {
    match problem.bound(number) {
        Some(BoundAt::Plain(found)) => *found == bound,
        _ => false,
    }
}

// Whether the names, bounds and query are those that `a_problem` was made of.
fn is_as_written(problem: &Problem) -> bool {
    let query = Query {
        formula: 2,
        given: None,
        both: 2,
    };
    problem.name(0) == Some(b"a".as_slice())
        && problem.name(1) == Some(b"b".as_slice())
        && has_bound(problem, 1, bound(1, Some(2), 3, Side::AtLeast, 4))
        && has_bound(problem, 2, bound(1, Some(2), 3, Side::AtMost, 2))
        && has_bound(problem, 3, bound(1, None, 1, Side::AtLeast, 2))
        && problem.queries().get(0) == Some(&query)
}

#[test]
fn numbers_follow_the_order_of_sentences(rt: HostRuntime) -> Result<(), Fail> {
    let right = match a_problem(rt.alloc()) {
        Ok(problem) => is_as_written(&problem),
        Err(_) => false,
    };
    assert!(rt; right);
    Ok(())
}

// Adds this many sentences with one bound.
fn fill(draft: &mut Draft, count: u32) -> Result<(), NoMemory>
    requires formulas { length draft.old.formulas ≡ 2 }
    requires items { length draft.old.items ≡ 0 }
{
    for _ in 0..count {
        draft.sentence(1, None, Side::AtLeast, 1, 1, None)?;
    }
    Ok(())
}

// The problem of this many bounds.
fn many(alloc: Global, count: u32) -> Result<Problem, BuildError> {
    let mut draft = formulas(alloc)?;
    fill(&mut draft, count)?;
    build(alloc, &draft)
}

// Whether 100 bounds pass and the 101st is refused at its item.
fn are_bounds_counted(alloc: Global) -> bool {
    let refused = many(alloc, 101).err() == Some(BuildError::TooManyBounds { item: 101 });
    refused && many(alloc, 100).is_ok()
}

#[test]
fn bounds_are_counted(rt: HostRuntime) -> Result<(), Fail> {
    assert!(rt; are_bounds_counted(rt.alloc()));
    Ok(())
}
