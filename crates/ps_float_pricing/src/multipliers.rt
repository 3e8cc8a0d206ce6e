//! The multipliers of a claim, in whole numbers.

use ps_answer::Dual;
use ps_io::List;
use std::alloc::{AllocError, Global};

/// The multipliers of a claim, in whole numbers: those of the query (`top`), of the evidence
/// (`head`) and of each bound.
#[derive(Drop)]
pub struct Multipliers {
    /// The number of the query.
    pub top: i128,
    /// The number of the evidence.
    pub head: i128,
    bounds: Vec<i128>,
}

impl Multipliers {
    /// The multipliers 0 of so many bounds.
    pub fn new(
        alloc: Global,
        top: i128,
        head: i128,
        bounds: usize,
    ) -> Result<Multipliers, AllocError> {
        Ok(Multipliers {
            top,
            head,
            bounds: vec![in alloc; 0; bounds]?,
        })
    }

    /// Sets the multiplier of a bound.
    pub fn set(&mut self, number: usize, multiplier: i128) {
        if let Some(place) = self.bounds.get_mut(number) {
            *place = multiplier;
        }
    }

    /// The multiplier of a bound.
    pub fn get(&self, number: usize) -> i128 {
        self.bounds.get(number).copied().unwrap_or(0)
    }

    /// The dual of these multipliers, without steps.
    pub fn into_dual(self, alloc: Global) -> Dual {
        Dual {
            top: self.top,
            head: self.head,
            rows: List::from_vec(self.bounds),
            steps: List::new(alloc),
        }
    }
}
