//! Which part a bound takes.

use crate::row::{Certainty, Row};
use ps_formula::Node;
use ps_meaning::Side;
use std::alloc::{AllocError, Global};

/// Which part a bound takes.
#[derive(Drop)]
pub(crate) enum Part {
    /// Each world must meet it.
    Certain(Certainty),
    /// It is a row of the program.
    Row(Row),
    /// Each distribution meets it.
    Met,
}

/// What a row has in a world at least or at most, and where it has that.
#[derive(Clone, Copy)]
enum Extreme {
    /// At least 0, where a node is false.
    Least(u32),
    /// At most 0, where a node is true or a condition is false.
    Most(u32, Option<u32>),
    /// This number in each world.
    Always(i64),
    /// None of these.
    Other,
}

// Whether a node joins another and this one by `&`.
fn is_joined(nodes: &[Node], both: u32, given: u32) -> bool {
    match nodes.get(both as usize) {
        Some(Node::And(_, right)) => *right == given,
        _ => false,
    }
}

// What a row without numbers that are 0 has in a world at least or at most.
fn extreme_of(row: &Row, nodes: &[Node]) -> Extreme {
    let sign = row.sign();
    let base = sign.wrapping_mul(row.base());
    match row.terms() {
        [] => Extreme::Always(base),
        [term] if term.number == sign && base == 0 => Extreme::Least(term.node),
        [term] if term.number == sign && base == -1 => Extreme::Most(term.node, None),
        [both, given]
            if both.number == sign
                && given.number == sign.wrapping_neg()
                && base == 0
                && is_joined(nodes, both.node, given.node) => {
            Extreme::Most(both.node, Some(given.node))
        }
        _ => Extreme::Other,
    }
}

// Whether a number is on a side of 0.
fn is_on(side: Side, number: i64) -> bool {
    match side {
        Side::AtLeast => number >= 0,
        Side::AtMost => number <= 0,
        Side::Exactly => number == 0,
    }
}

/// The part of the bound of a number, from 0, by its row: what no world can pass is met, or each world
/// must be there.
pub(crate) fn part_of(
    alloc: Global,
    number: usize,
    bound: &ps_problem::Row,
    nodes: &[Node],
) -> Result<Part, AllocError> {
    let row = Row::new(alloc, number, bound)?;
    Ok(match extreme_of(&row, nodes) {
        Extreme::Least(_) if bound.side == Side::AtLeast => Part::Met,
        Extreme::Least(both) => Part::Certain(Certainty {
            number,
            both,
            given: None,
            is_true: false,
        }),
        Extreme::Most(_, _) if bound.side == Side::AtMost => Part::Met,
        Extreme::Most(both, given) => Part::Certain(Certainty {
            number,
            both,
            given,
            is_true: true,
        }),
        Extreme::Always(sum) if is_on(bound.side, sum) => Part::Met,
        Extreme::Always(_) | Extreme::Other => Part::Row(row),
    })
}
