//! The truth of the nodes of a search.

use crate::neighbours::{Neighbours, Worlds};
use ps_formula::Node;
use std::alloc::{AllocError, Global};

/// The truth of each node that was looked at last. A number that isn't there stands for a node that is
/// false.
#[derive(Drop)]
pub(crate) struct Truths {
    all: Vec<Neighbours>,
}

impl Truths {
    /// So many nodes, all of them false.
    pub(crate) fn new(alloc: Global, nodes: usize) -> Result<Truths, AllocError> {
        Ok(Truths {
            all: vec![in alloc; Neighbours::all(false); nodes]?,
        })
    }

    /// The truth of a node.
    pub(crate) fn get(&self, node: u32) -> Neighbours {
        self.all
            .get(node as usize)
            .copied()
            .unwrap_or(Neighbours::all(false))
    }

    /// Notes the truth of a node.
    pub(crate) fn set(&mut self, node: u32, truth: Neighbours) {
        if let Some(place) = self.all.get_mut(node as usize) {
            *place = truth;
        }
    }

    /// The truth of a node over that of its operands.
    pub(crate) fn truth_of(&self, node: Node, worlds: Worlds<'_>) -> Neighbours {
        match node {
            Node::True => Neighbours::all(true),
            Node::False => Neighbours::all(false),
            Node::Atom(n) => worlds.atom(n),
            Node::Not(a) => self.get(a).not(),
            Node::And(a, b) => self.get(a).and(self.get(b)),
            Node::Or(a, b) => self.get(a).or(self.get(b)),
            Node::Implies(a, b) => self.get(a).not().or(self.get(b)),
            Node::Iff(a, b) => self.get(a).iff(self.get(b)),
        }
    }
}
