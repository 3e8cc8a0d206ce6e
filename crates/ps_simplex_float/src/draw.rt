//! A fixed sequence of floats.

use std::num::nearest_u64_to_f64;

/// Floats that look drawn by chance, by a linear congruence (D. H. Lehmer 1951); the same in each run.
#[derive(Clone, Copy)]
pub(crate) struct Draw {
    state: u64,
}

impl Draw {
    /// The sequence from its start.
    pub(crate) fn new() -> Draw {
        Draw { state: 777 }
    }

    /// A float from 0 up to 1.
    pub(crate) fn next(&mut self) -> f64 {
        self.state = self
            .state
            .wrapping_mul(6364136223846793005)
            .wrapping_add(1442695040888963407);
        nearest_u64_to_f64(self.state >> 11) / 9007199254740992.0
    }
}
