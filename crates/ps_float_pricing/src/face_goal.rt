//! Goals within a face.

use crate::float_goal::FloatGoal;
use crate::goal::Goal;
use crate::relaxed::Relaxed;
use std::alloc::{AllocError, Global};
use std::num::saturating_f64_to_i64;

/// The sizes of a goal within a face sum to at most so much.
const MOST_SIZE: u128 = 1 << 122;

/// The largest weights of a gain that are tried, the finest first.
const LARGEST_WEIGHTS: [f64; 4] = [16_777_216.0, 1_048_576.0, 65_536.0, 1_024.0];

/// A gain of less counts as none.
const LEAST_GAIN: f64 = 1e-7;

/// A gain in whole numbers that counts in the worlds of a face alone. In all others it is below 1.
#[derive(Drop)]
pub(crate) struct FaceGoal {
    pub(crate) goal: Goal,
    /// What the goal is at least where there is a gain.
    pub(crate) least: i128,
}

// So much more of a goal that is at most 0, and of the certainties, that a gain can't outweigh it.
fn exclude(gain: &mut Goal, relaxed: &Relaxed, face: &Goal, size: i128) {
    gain.add_given(None, face.base().wrapping_mul(size));
    for (number, weight) in (0..u32::MAX).zip(face.weights()) {
        gain.add(number, weight.wrapping_mul(size));
    }
    relaxed.add_certainties(gain, size);
}

impl FaceGoal {
    /// The goal of a gain, within the face on which another goal, at most 0 in each world, is 0. None
    /// where the numbers are too large.
    pub(crate) fn new(
        alloc: Global,
        relaxed: &Relaxed,
        face: &Goal,
        gain: &FloatGoal,
    ) -> Result<Option<FaceGoal>, AllocError> {
        for largest in LARGEST_WEIGHTS {
            let scale = largest / gain.largest().max(1e-12);
            let mut goal = gain.to_goal(alloc, scale)?;
            let size = goal.size().saturating_add(1);
            if let Ok(size) = i128::try_from(size) {
                if is_small(face, relaxed, size) {
                    exclude(&mut goal, relaxed, face, size);
                    let least = saturating_f64_to_i64(LEAST_GAIN * scale).saturating_add(1);
                    return Ok(Some(FaceGoal {
                        goal,
                        least: least as i128,
                    }));
                }
            }
        }
        Ok(None)
    }
}

// Whether the sizes sum to little enough where the face and the certainties count so many times.
fn is_small(face: &Goal, relaxed: &Relaxed, times: i128) -> bool {
    let certainties = relaxed.certainties().len() as u128;
    let parts = face
        .size()
        .saturating_add(certainties.saturating_mul(2))
        .saturating_add(1);
    parts.saturating_mul(times.unsigned_abs()) <= MOST_SIZE
}
