//! Clauses that say what nodes mean.

use crate::clauses::Clauses;
use crate::lit::Lit;
use crate::variables::Variables;
use ps_formula::Node;
use std::alloc::{AllocError, Global};

/// A literal that is true where one of two others is.
#[derive(Clone, Copy)]
struct Either {
    whole: Lit,
    parts: [Lit; 2],
}

/// The clauses of nodes. A negation has the opposite of its operand's literal, and a disjunction that stands
/// once, inside a disjunction, has none: the outer one has its parts.
#[derive(Drop)]
pub(crate) struct Gates {
    alloc: Global,
    lits: Vec<Lit>,
    /// How often each variable stands in other nodes; twice more where it is cited.
    uses: Vec<u32>,
    is_inner: Vec<bool>,
    pub(crate) clauses: Clauses,
    pub(crate) facts: Vec<Lit>,
}

// The literals of a node's operands, where it has two.
fn operands(node: Node) -> Option<(u32, u32)> {
    match node {
        Node::True | Node::False | Node::Atom(_) | Node::Not(_) => None,
        Node::And(a, b) | Node::Or(a, b) | Node::Implies(a, b) | Node::Iff(a, b) => Some((a, b)),
    }
}

impl Gates {
    /// The clauses of nodes, of which these are cited.
    pub(crate) fn new(alloc: Global, nodes: &[Node], cited: &[u32]) -> Result<Gates, AllocError> {
        let mut gates = Gates {
            alloc,
            lits: Vec::new(alloc),
            uses: vec![in alloc; 0; nodes.len()]?,
            is_inner: vec![in alloc; false; nodes.len()]?,
            clauses: Clauses::new(alloc),
            facts: Vec::new(alloc),
        };
        for (number, node) in (0..u32::MAX).zip(nodes) {
            let lit = match *node {
                Node::Not(operand) => gates.lit(operand).opposite(),
                _ => Lit::new(number, true),
            };
            gates.lits.push(lit)?;
        }
        gates.count_uses(nodes, cited);
        for number in (0..nodes.len()).rev() {
            if let Some(node) = nodes.get(number) {
                gates.add_node(nodes, number, *node)?;
            }
        }
        Ok(gates)
    }

    // The literal of a node.
    fn lit(&self, node: u32) -> Lit {
        self.lits
            .get(node as usize)
            .copied()
            .unwrap_or(Lit::new(node, true))
    }

    // Counts where each variable stands.
    fn count_uses(&mut self, nodes: &[Node], cited: &[u32]) {
        for node in nodes {
            if let Some((a, b)) = operands(*node) {
                self.count(a, 1);
                self.count(b, 1);
            }
        }
        for node in cited {
            self.count(*node, 2);
        }
    }

    // Counts a node so often.
    fn count(&mut self, node: u32, times: u32) {
        let variable = self.lit(node).variable();
        if let Some(uses) = self.uses.get_mut(variable) {
            *uses = uses.saturating_add(times);
        }
    }

    // How often a variable stands somewhere.
    fn uses_of(&self, variable: usize) -> u32 {
        self.uses.get(variable).copied().unwrap_or(0)
    }

    /// The variables of the nodes.
    pub(crate) fn variables(&self, nodes: &[Node], atoms: u16) -> Result<Variables, AllocError> {
        let mut variables = Variables::new(self.alloc, atoms)?;
        for (number, node) in (0..u32::MAX).zip(nodes) {
            let lit = self.lit(number);
            let place = lit.variable();
            let is_atom = matches!(nodes.get(place), Some(Node::Atom(_)));
            let is_inner = self.is_inner.get(place).copied().unwrap_or(true);
            let has_meaning = is_atom || (self.uses_of(place) > 0 && !is_inner);
            variables.add(number, *node, if has_meaning { Some(lit) } else { None })?;
        }
        Ok(variables)
    }

    // The node of a number as a disjunction.
    fn either(&self, nodes: &[Node], number: usize) -> Option<Either> {
        let node = *nodes.get(number)?;
        let (a, b) = operands(node)?;
        let (a, b) = (self.lit(a), self.lit(b));
        let own = Lit::new(u32::try_from(number).ok()?, true);
        match node {
            Node::Or(_, _) => Some(Either {
                whole: own,
                parts: [a, b],
            }),
            Node::And(_, _) => Some(Either {
                whole: own.opposite(),
                parts: [a.opposite(), b.opposite()],
            }),
            Node::Implies(_, _) => Some(Either {
                whole: own,
                parts: [a.opposite(), b],
            }),
            Node::True | Node::False | Node::Atom(_) | Node::Not(_) | Node::Iff(_, _) => None,
        }
    }

    // Adds the clauses of a node that counts.
    fn add_node(&mut self, nodes: &[Node], number: usize, node: Node) -> Result<(), AllocError> {
        let is_inner = self.is_inner.get(number).copied().unwrap_or(true);
        if is_inner || self.uses_of(number) == 0 {
            return Ok(());
        }
        let own = self.lit(u32::try_from(number).unwrap_or(u32::MAX));
        match node {
            Node::Atom(_) | Node::Not(_) => {}
            Node::True => self.facts.push(own)?,
            Node::False => self.facts.push(own.opposite())?,
            Node::Iff(a, b) => self.add_equality(own, self.lit(a), self.lit(b))?,
            Node::And(_, _) | Node::Or(_, _) | Node::Implies(_, _) => {
                if let Some(either) = self.either(nodes, number) {
                    self.add_disjunction(nodes, either)?;
                }
            }
        }
        Ok(())
    }

    // The clauses of a disjunction.
    fn add_disjunction(&mut self, nodes: &[Node], either: Either) -> Result<(), AllocError> {
        let mut parts = self.parts_of(nodes, either)?;
        for part in &parts {
            self.add(&[either.whole, part.opposite()])?;
        }
        parts.push(either.whole.opposite())?;
        self.add(&parts)
    }

    // The parts of a disjunction, with those of the disjunctions inside it that stand nowhere else.
    fn parts_of(&mut self, nodes: &[Node], either: Either) -> Result<Vec<Lit>, AllocError> {
        let mut parts = Vec::new(self.alloc);
        let mut left = Vec::new(self.alloc);
        left.push(either.parts)?;
        for _ in 0..nodes.len() {
            let Some(pair) = left.pop() else {
                return Ok(parts);
            };
            for part in pair {
                match self.inner(nodes, part) {
                    Some(inner) => left.push(inner.parts)?,
                    None => parts.push(part)?,
                }
            }
        }
        Ok(parts)
    }

    // A part of a disjunction that is a disjunction, and stands nowhere else.
    fn inner(&mut self, nodes: &[Node], part: Lit) -> Option<Either> {
        let place = part.variable();
        let either = self.either(nodes, place)?;
        if either.whole != part || self.uses_of(place) != 1 {
            return None;
        }
        if let Some(is_inner) = self.is_inner.get_mut(place) {
            *is_inner = true;
        }
        Some(either)
    }

    // The clauses that a literal is true where two others have the same value.
    fn add_equality(&mut self, own: Lit, a: Lit, b: Lit) -> Result<(), AllocError> {
        let (no_own, no_a, no_b) = (own.opposite(), a.opposite(), b.opposite());
        self.add(&[no_own, no_a, b])?;
        self.add(&[no_own, a, no_b])?;
        self.add(&[own, a, b])?;
        self.add(&[own, no_a, no_b])
    }

    /// Adds a clause, unless it has a literal and its opposite; each literal stands once in it.
    pub(crate) fn add(&mut self, lits: &[Lit]) -> Result<(), AllocError> {
        let mut clause = Vec::new(self.alloc);
        for lit in lits {
            if clause.contains(&lit.opposite()) {
                return Ok(());
            }
            if !clause.contains(lit) {
                clause.push(*lit)?;
            }
        }
        match clause.as_slice() {
            [fact] => self.facts.push(*fact)?,
            lits => {
                self.clauses.add(lits, false, false)?;
            }
        }
        Ok(())
    }
}
