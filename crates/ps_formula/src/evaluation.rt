//! Truth of formulas in a world.
ghost use Rattle.std.specs.Prelude.{All, vec_len, ◌≡◌, length, IfOk};
ghost use Rattle.ps_formula.specs.Nodes.{Fits, AtomBelow, truths, value_over};

use crate::{Formulas, Node, World};
use ps_io::NoMemory;
use std::alloc::Global;

// The truth value of a node, from those of the nodes before it.
fn value_of(node: Node, values: &[bool], world: &[bool]) -> bool
    requires fits { Fits (length values.now) node }
    requires atom { AtomBelow (length world.now) node }
    ensures { result ≡ value_over values.now world.now node }
{
    match node {
        Node::True => true,
        Node::False => false,
        Node::Atom(n) => world[n as usize],
        Node::Not(a) => !values[a as usize],
        Node::And(a, b) => values[a as usize] && values[b as usize],
        Node::Or(a, b) => values[a as usize] || values[b as usize],
        Node::Implies(a, b) => !values[a as usize] || values[b as usize],
        Node::Iff(a, b) => values[a as usize] == values[b as usize],
    }
}

/// The truth value of each node in a world, by the node's number. The world has a value for each
/// atom.
pub fn eval(alloc: Global, formulas: &Formulas, world: &World) -> Result<Vec<bool>, NoMemory>
    requires { All (AtomBelow (length world.now)) formulas.now }
    ensures truths { IfOk result (λ v. v.items ≡ truths formulas.now world.now) }
    ensures len { IfOk result (λ v. vec_len v ≡ length formulas.now) }
{
    let mut values = Vec::new(alloc);
    for node in formulas.nodes() {
        let value = value_of(*node, &values, world.as_slice());
        values.push(value)?;
    }
    Ok(values)
}
