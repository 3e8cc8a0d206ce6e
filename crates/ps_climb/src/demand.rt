//! What a world must meet.

use ps_formula::Node;

/// What a world must meet. Nodes are numbers of a list of formulas; one that isn't there demands nothing.
#[derive(Clone, Copy, Debug, PartialEq, Eq)]
pub enum Demand {
    /// The node is true.
    True(u32),
    /// The node is false.
    False(u32),
    /// The second node is true where the first is.
    Implies(u32, u32),
}

/// The truth values that a node must have.
#[derive(Clone, Copy)]
pub(crate) struct Demanded {
    is_true: bool,
    is_false: bool,
}

impl Demanded {
    /// None.
    pub(crate) fn none() -> Demanded {
        Demanded {
            is_true: false,
            is_false: false,
        }
    }

    /// Adds a truth value.
    pub(crate) fn add(&mut self, truth: bool) {
        if truth {
            self.is_true = true;
        } else {
            self.is_false = true;
        }
    }

    /// Takes a truth value out.
    pub(crate) fn drop(&mut self, truth: bool) {
        if truth {
            self.is_true = false;
        } else {
            self.is_false = false;
        }
    }

    /// Whether this truth value is one of them.
    pub(crate) fn has(self, truth: bool) -> bool {
        if truth { self.is_true } else { self.is_false }
    }

    /// Whether a node of this truth value meets them.
    pub(crate) fn is_met_by(self, truth: bool) -> bool {
        !self.has(!truth)
    }

    /// By how much more of them a true node meets than a false one.
    pub(crate) fn sign(self) -> f64 {
        match (self.is_true, self.is_false) {
            (true, false) => 1.0,
            (false, true) => -1.0,
            _ => 0.0,
        }
    }
}

/// A truth value that a node is to have.
#[derive(Clone, Copy)]
pub(crate) struct Part {
    pub(crate) node: u32,
    pub(crate) truth: bool,
}

impl Part {
    /// This node is to have this truth value.
    pub(crate) fn new(node: u32, truth: bool) -> Part {
        Part { node, truth }
    }
}

/// The two parts into which a node of a truth value falls, where it has that value only if both have
/// theirs.
pub(crate) fn parts(node: Node, truth: bool) -> Option<(Part, Part)> {
    match (node, truth) {
        (Node::And(a, b), true) => Some((Part::new(a, true), Part::new(b, true))),
        (Node::Or(a, b), false) => Some((Part::new(a, false), Part::new(b, false))),
        (Node::Implies(a, b), false) => Some((Part::new(a, true), Part::new(b, false))),
        (Node::Not(a), _) => Some((Part::new(a, !truth), Part::new(a, !truth))),
        _ => None,
    }
}
