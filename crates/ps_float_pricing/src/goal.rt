//! A sum over the true nodes, in whole numbers.

use std::alloc::{AllocError, Global};

/// A sum over the true nodes, in whole numbers. A sum that is too large wraps.
#[derive(Drop)]
pub struct Goal {
    weights: Vec<i128>,
    base: i128,
}

impl Goal {
    /// The sum 0 over so many nodes.
    pub fn new(alloc: Global, nodes: usize) -> Result<Goal, AllocError> {
        Ok(Goal {
            weights: vec![in alloc; 0; nodes]?,
            base: 0,
        })
    }

    /// Adds to the weight of a node.
    pub fn add(&mut self, node: u32, weight: i128) {
        if let Some(sum) = self.weights.get_mut(node as usize) {
            *sum = sum.wrapping_add(weight);
        }
    }

    /// Adds to the weight of a condition.
    pub fn add_given(&mut self, given: Option<u32>, weight: i128) {
        match given {
            Some(node) => self.add(node, weight),
            None => self.base = self.base.wrapping_add(weight),
        }
    }

    /// The weights of the nodes, by their numbers.
    pub fn weights(&self) -> &[i128] {
        &self.weights
    }

    /// What the sum is where no node is true.
    pub fn base(&self) -> i128 {
        self.base
    }

    /// The sum in a world.
    pub fn value(&self, truth: &[bool]) -> i128 {
        let mut sum = self.base;
        for (weight, is_true) in self.weights.iter().zip(truth) {
            if *is_true {
                sum = sum.wrapping_add(*weight);
            }
        }
        sum
    }

    /// What no world's sum is above: the base and the weights above 0.
    pub fn greatest(&self) -> i128 {
        let mut sum = self.base;
        for weight in &self.weights {
            if *weight > 0 {
                sum = sum.wrapping_add(*weight);
            }
        }
        sum
    }

    /// The sizes of all weights and of the base.
    pub fn size(&self) -> u128 {
        let mut sum = self.base.unsigned_abs();
        for weight in &self.weights {
            sum = sum.saturating_add(weight.unsigned_abs());
        }
        sum
    }
}
