//! A sum over the true nodes, in floats.

use crate::goal::Goal;
use std::alloc::{AllocError, Global};
use std::num::saturating_f64_to_i64;

/// A sum over the true nodes, in floats.
#[derive(Drop)]
pub struct FloatGoal {
    weights: Vec<f64>,
    base: f64,
}

impl FloatGoal {
    /// The sum 0 over so many nodes.
    pub fn new(alloc: Global, nodes: usize) -> Result<FloatGoal, AllocError> {
        Ok(FloatGoal {
            weights: vec![in alloc; 0.0; nodes]?,
            base: 0.0,
        })
    }

    /// The sum 0 again.
    pub fn clear(&mut self) {
        self.weights.fill(0.0);
        self.base = 0.0;
    }

    /// Adds to the weight of a node.
    pub fn add(&mut self, node: u32, weight: f64) {
        if let Some(sum) = self.weights.get_mut(node as usize) {
            *sum += weight;
        }
    }

    /// Adds to the weight of a condition.
    pub fn add_given(&mut self, given: Option<u32>, weight: f64) {
        match given {
            Some(node) => self.add(node, weight),
            None => self.base += weight,
        }
    }

    /// The weights of the nodes, by their numbers.
    pub fn weights(&self) -> &[f64] {
        &self.weights
    }

    /// What the sum is where no node is true.
    pub fn base(&self) -> f64 {
        self.base
    }

    /// The sum in a world.
    pub fn value(&self, truth: &[bool]) -> f64 {
        let mut sum = self.base;
        for (weight, is_true) in self.weights.iter().zip(truth) {
            if *is_true {
                sum += weight;
            }
        }
        sum
    }

    /// The largest size of a weight, or of the base.
    pub fn largest(&self) -> f64 {
        let mut largest = self.base.abs();
        for weight in &self.weights {
            largest = largest.max(weight.abs());
        }
        largest
    }

    /// The sum times a scale, in whole numbers.
    pub fn to_goal(&self, alloc: Global, scale: f64) -> Result<Goal, AllocError> {
        let mut goal = Goal::new(alloc, self.weights.len())?;
        for (node, weight) in (0..u32::MAX).zip(&self.weights) {
            goal.add(
                node,
                saturating_f64_to_i64((weight * scale).round()) as i128,
            );
        }
        goal.add_given(
            None,
            saturating_f64_to_i64((self.base * scale).round()) as i128,
        );
        Ok(goal)
    }
}
