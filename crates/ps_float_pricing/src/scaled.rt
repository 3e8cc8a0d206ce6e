//! The goal of a pricing in whole numbers.

use crate::float_goal::FloatGoal;
use crate::goal::Goal;
use crate::limits::LARGEST_WEIGHT;
use std::alloc::{AllocError, Global};
use std::num::saturating_f64_to_i64;

/// A gain in whole numbers.
#[derive(Drop)]
pub(crate) struct Scaled {
    pub(crate) goal: Goal,
    scale: f64,
}

impl Scaled {
    /// A gain times a scale.
    pub(crate) fn new(alloc: Global, gain: &FloatGoal) -> Result<Scaled, AllocError> {
        let scale = LARGEST_WEIGHT / gain.largest().max(1e-300);
        Ok(Scaled {
            goal: gain.to_goal(alloc, scale)?,
            scale,
        })
    }

    /// A gain in whole numbers, at least 1.
    pub(crate) fn least(&self, gain: f64) -> i128 {
        saturating_f64_to_i64(gain * self.scale).max(1) as i128
    }
}
