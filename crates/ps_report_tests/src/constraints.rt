use ps_pb::{Assignment, Constraint, Lit, Terms, forces, from_weights, slack};
use std::alloc::Global;
use std::test::Fail;

// The terms of the constraint that lets 3, -2 and 1 on the literals 1, 2 and -1 weigh at least 2.
const NORMAL: [(i32, i128); 2] = [(1, 2), (-2, 2)];

fn lit(number: i32) -> Result<Lit, Fail> {
    Ok(Lit::new(number).ok_or("a literal")?)
}

fn is_row(constraint: &Constraint, i: usize, row: &(i32, i128)) -> bool {
    constraint
        .terms()
        .get(i)
        .is_some_and(|term| term.0.number() == row.0 && term.1 == row.1)
}

fn is_normal(constraint: &Constraint) -> bool {
    constraint.degree() == 3
        && constraint.terms().len() == 2
        && is_row(constraint, 0, &NORMAL[0])
        && is_row(constraint, 1, &NORMAL[1])
}

#[test]
fn weights_are_normalised(rt: HostRuntime) -> Result<(), Fail> {
    let weights = [(lit(2)?, -2), (lit(1)?, 3), (lit(-1)?, 1)];
    let goal = from_weights(rt.alloc(), &weights, 2).ok().ok_or("memory")?;
    assert!(rt; is_normal(&goal));
    Ok(())
}

// 2 on the literals 1 and -2, of which the second is false where variable 2 is true.
fn forced(alloc: Global) -> Option<bool> {
    let mut terms = Terms::new(alloc);
    for row in &NORMAL {
        terms.push((Lit::new(row.0)?, row.1)).ok()?;
    }
    let constraint = Constraint::new(terms, 2)?;
    let mut values = Assignment::new(alloc, 2).ok()?;
    let before = slack(&constraint, &values);
    values.set(Lit::new(2)?);
    let copy = values.copy(alloc).ok()?;
    Some(before == 2 && forces(&constraint, &copy, Lit::new(1)?))
}

#[test]
fn a_constraint_forces(rt: HostRuntime) {
    assert!(rt; forced(rt.alloc()) == Some(true));
}
