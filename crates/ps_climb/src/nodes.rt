//! The nodes of a search: those of formulas, and behind them one for each conditional demand.

use crate::demand::{Demand, Demanded, Part, parts};
use crate::neighbours::{Worlds, atom_bit, has_atom};
use crate::truths::Truths;
use ps_formula::{Formulas, Node};
use ps_io::NoMemory;
use std::alloc::Global;

/// A node of a search.
#[derive(Clone, Copy)]
struct Weighed {
    node: Node,
    demanded: Demanded,
    /// What its truth counts.
    weight: f64,
    /// Whether its truth is looked at.
    is_needed: bool,
    /// The atoms that it is made of, one bit each.
    atoms: u128,
}

impl Weighed {
    /// A node of which nothing is demanded.
    fn new(node: Node) -> Weighed {
        Weighed {
            node,
            demanded: Demanded::none(),
            weight: 0.0,
            is_needed: false,
            atoms: 0,
        }
    }
}

/// A node whose truth is looked at.
#[derive(Clone, Copy)]
struct Needed {
    number: u32,
    node: Node,
    weight: f64,
    atoms: u128,
}

/// The nodes of a search, by number. A number that isn't there stands for a node that is false.
#[derive(Drop)]
pub(crate) struct Nodes {
    all: Vec<Weighed>,
    /// Those whose truth is looked at, operands first.
    needed: Vec<Needed>,
    truths: Truths,
}

impl Nodes {
    /// The nodes of formulas, with these demands.
    pub(crate) fn new(
        alloc: Global,
        formulas: &Formulas,
        demands: &[Demand],
    ) -> Result<Nodes, NoMemory> {
        let count = formulas.nodes().len().saturating_add(demands.len());
        let mut nodes = Nodes {
            all: Vec::new(alloc),
            needed: Vec::new(alloc),
            truths: Truths::new(alloc, count)?,
        };
        for node in formulas.nodes() {
            nodes.all.push(Weighed::new(*node))?;
        }
        nodes.add_demands(demands)?;
        nodes.split_demands();
        nodes.find_atoms();
        Ok(nodes)
    }

    /// Finds the atoms that each node is made of.
    fn find_atoms(&mut self) {
        for place in 0..self.all.len() {
            if let Some(weighed) = self.all.get(place).copied() {
                let atoms = self.atoms_of(weighed.node);
                if let Some(weighed) = self.all.get_mut(place) {
                    weighed.atoms = atoms;
                }
            }
        }
    }

    /// The atoms that a node is made of, by those of its operands.
    fn atoms_of(&self, node: Node) -> u128 {
        match node {
            Node::True | Node::False => 0,
            Node::Atom(number) => atom_bit(number),
            Node::Not(a) => self.atoms_in(a),
            Node::And(a, b) | Node::Or(a, b) | Node::Implies(a, b) | Node::Iff(a, b) => {
                self.atoms_in(a) | self.atoms_in(b)
            }
        }
    }

    /// The atoms of a node that were found.
    fn atoms_in(&self, node: u32) -> u128 {
        match self.all.get(node as usize) {
            Some(weighed) => weighed.atoms,
            None => 0,
        }
    }

    /// Notes the demands.
    fn add_demands(&mut self, demands: &[Demand]) -> Result<(), NoMemory> {
        for demand in demands {
            match *demand {
                Demand::True(node) => self.demand(Part::new(node, true)),
                Demand::False(node) => self.demand(Part::new(node, false)),
                Demand::Implies(given, then) => {
                    let mut conditional = Weighed::new(Node::Implies(given, then));
                    conditional.demanded.add(true);
                    self.all.push(conditional)?;
                }
            }
        }
        Ok(())
    }

    /// Notes that a node must have a truth value.
    fn demand(&mut self, part: Part) {
        if let Some(weighed) = self.all.get_mut(part.node as usize) {
            weighed.demanded.add(part.truth);
        }
    }

    /// Demands of conjunctions become demands of their parts, so that each part that is met counts.
    fn split_demands(&mut self) {
        for place in (0..self.all.len()).rev() {
            self.split(place, true);
            self.split(place, false);
        }
    }

    /// The same for one node and truth value.
    fn split(&mut self, place: usize, truth: bool) {
        let Some(weighed) = self.all.get_mut(place) else {
            return;
        };
        if !weighed.demanded.has(truth) {
            return;
        }
        if let Some((first, second)) = parts(weighed.node, truth) {
            weighed.demanded.drop(truth);
            self.demand(first);
            self.demand(second);
        }
    }

    /// Gives each node its coefficient, and where it is demanded a penalty that outweighs all of them,
    /// which is the result.
    pub(crate) fn weigh(&mut self, coefficients: &[f64]) -> f64 {
        let penalty = 1.0 + sum_of_sizes(coefficients);
        for weighed in self.all.iter_mut() {
            weighed.weight = penalty * weighed.demanded.sign();
        }
        for (weighed, coefficient) in self.all.iter_mut().zip(coefficients) {
            weighed.weight += coefficient;
        }
        penalty
    }

    /// Finds which nodes are needed: those that count, and their operands.
    pub(crate) fn find_needed(&mut self) -> Result<(), NoMemory> {
        for weighed in self.all.iter_mut() {
            weighed.is_needed = weighed.weight != 0.0;
        }
        for place in (0..self.all.len()).rev() {
            if let Some(weighed) = self.all.get(place).copied() {
                if weighed.is_needed {
                    self.need_operands(weighed.node);
                }
            }
        }
        self.list_needed()
    }

    /// Lists the needed nodes.
    fn list_needed(&mut self) -> Result<(), NoMemory> {
        self.needed.clear();
        for (number, weighed) in (0..u32::MAX).zip(&self.all) {
            if weighed.is_needed {
                self.needed.push(Needed {
                    number,
                    node: weighed.node,
                    weight: weighed.weight,
                    atoms: weighed.atoms,
                })?;
            }
        }
        Ok(())
    }

    /// Notes that the operands of a node are needed.
    fn need_operands(&mut self, node: Node) {
        match node {
            Node::True | Node::False | Node::Atom(_) => {}
            Node::Not(a) => self.need(a),
            Node::And(a, b) | Node::Or(a, b) | Node::Implies(a, b) | Node::Iff(a, b) => {
                self.need(a);
                self.need(b);
            }
        }
    }

    /// Notes that a node is needed.
    fn need(&mut self, node: u32) {
        if let Some(weighed) = self.all.get_mut(node as usize) {
            weighed.is_needed = true;
        }
    }

    /// Finds the truth of the needed nodes in worlds.
    pub(crate) fn evaluate(&mut self, worlds: Worlds<'_>) {
        for needed in &self.needed {
            let truth = self.truths.truth_of(needed.node, worlds);
            self.truths.set(needed.number, truth);
        }
    }

    /// The weights of the nodes that are true, and by how much more each neighbour has.
    pub(crate) fn find_gains(&self, gains: &mut [f64]) -> f64 {
        let mut value = 0.0;
        gains.fill(0.0);
        for needed in &self.needed {
            if needed.weight != 0.0 {
                let truth = self.truths.get(needed.number);
                value += truth.worth(needed.weight);
                truth.add_gains(needed.weight, gains);
            }
        }
        value
    }

    /// Finds the truth of the needed nodes again where an atom was turned, and what each neighbour has more
    /// than the world. Answers by how much the value of the world rose.
    pub(crate) fn turn(&mut self, atom: u16, worlds: Worlds<'_>, gains: &mut [f64]) -> f64 {
        let mut rise = 0.0;
        for needed in &self.needed {
            if has_atom(needed.atoms, atom) {
                let old = self.truths.get(needed.number);
                let new = self.truths.truth_of(needed.node, worlds);
                self.truths.set(needed.number, new);
                if needed.weight != 0.0 && old != new {
                    rise += new.worth(needed.weight) - old.worth(needed.weight);
                    old.turn_gains(new, needed.weight, gains);
                }
            }
        }
        rise
    }

    /// The coefficients of the nodes that are true.
    pub(crate) fn value(&self, coefficients: &[f64]) -> f64 {
        let mut value = 0.0;
        for (number, coefficient) in (0..u32::MAX).zip(coefficients) {
            value += self.truths.get(number).worth(*coefficient);
        }
        value
    }

    /// Whether the world meets the demands.
    pub(crate) fn meet_demands(&self) -> bool {
        for (number, weighed) in (0..u32::MAX).zip(&self.all) {
            if !weighed.demanded.is_met_by(self.truths.get(number).here()) {
                return false;
            }
        }
        true
    }
}

/// The sum of the sizes of numbers.
fn sum_of_sizes(numbers: &[f64]) -> f64 {
    let mut sum = 0.0;
    for x in numbers {
        sum += x.abs();
    }
    sum
}
