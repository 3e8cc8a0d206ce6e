//! What values the atoms would have for a sum to be large.

use ps_formula::Node;
use std::alloc::{AllocError, Global};

// Adds to the wish of a node.
fn wish(wishes: &mut [f64], node: u32, weight: f64) {
    if let Some(sum) = wishes.get_mut(node as usize) {
        *sum += weight;
    }
}

// Hands the wish of a node on to its operands.
fn hand_on(wishes: &mut [f64], node: Node, weight: f64) {
    match node {
        Node::True | Node::False | Node::Atom(_) | Node::Iff(_, _) => {}
        Node::Not(operand) => wish(wishes, operand, -weight),
        Node::And(left, right) | Node::Or(left, right) => {
            wish(wishes, left, 0.5 * weight);
            wish(wishes, right, 0.5 * weight);
        }
        Node::Implies(left, right) => {
            wish(wishes, left, -0.5 * weight);
            wish(wishes, right, 0.5 * weight);
        }
    }
}

/// By node, how much a sum over the true nodes is likely to rise where the node is true: its weight,
/// and its part of what is above it.
pub(crate) fn wishes_of(
    alloc: Global,
    nodes: &[Node],
    weights: &[f64],
) -> Result<Vec<f64>, AllocError> {
    let mut wishes = weights.to_vec(alloc)?;
    for place in (0..nodes.len()).rev() {
        let weight = wishes.get(place).copied().unwrap_or(0.0);
        if let Some(node) = nodes.get(place) {
            hand_on(&mut wishes, *node, weight);
        }
    }
    Ok(wishes)
}
