//! The order of decisions.

use crate::lit::Lit;
use crate::trail::{Trail, Value};
use std::alloc::{AllocError, Global};

/// Each conflict counts so much more than the one before.
const GROWTH: f64 = 1.005;

/// Where a conflict counts more than this, all activities are scaled down.
const MOST_GAIN: f64 = 1e100;

/// Which atom to decide on next: the most active one (M. W. Moskewicz and others, "Chaff", 2001). It gets
/// its last value again (K. Pipatsrisawat, A. Darwiche, 2007).
#[derive(Drop)]
pub(crate) struct Order {
    /// The variables of atoms.
    atoms: Vec<u32>,
    /// By variable.
    activities: Vec<f64>,
    /// By variable.
    values: Vec<bool>,
    gain: f64,
}

impl Order {
    /// No atom is active, and the first values are false.
    pub(crate) fn new(
        alloc: Global,
        atoms: Vec<u32>,
        variables: usize,
    ) -> Result<Order, AllocError> {
        Ok(Order {
            atoms,
            activities: vec![in alloc; 0.0; variables]?,
            values: vec![in alloc; false; variables]?,
            gain: 1.0,
        })
    }

    /// The literal to decide on; none where each atom has a value.
    pub(crate) fn choose(&self, trail: &Trail) -> Option<Lit> {
        let mut best = None;
        let mut most = -1.0;
        for variable in &self.atoms {
            if trail.value(Lit::new(*variable, true)) == Value::Open {
                let activity = self.activity(*variable);
                if activity > most {
                    best = Some(*variable);
                    most = activity;
                }
            }
        }
        let variable = best?;
        Some(Lit::new(variable, self.value(variable)))
    }

    // How active a variable is.
    fn activity(&self, variable: u32) -> f64 {
        self.activities
            .get(variable as usize)
            .copied()
            .unwrap_or(0.0)
    }

    /// The value that a variable gets next.
    pub(crate) fn value(&self, variable: u32) -> bool {
        self.values.get(variable as usize).copied().unwrap_or(false)
    }

    /// A literal was true: its variable gets the same value next.
    #[inline]
    pub(crate) fn keep_value(&mut self, lit: Lit) {
        if let Some(value) = self.values.get_mut(lit.variable()) {
            *value = lit.value_wanted();
        }
    }

    /// A variable took part in a conflict.
    pub(crate) fn raise(&mut self, lit: Lit) {
        if let Some(activity) = self.activities.get_mut(lit.variable()) {
            *activity += self.gain;
        }
    }

    /// The next conflict counts more.
    pub(crate) fn end_conflict(&mut self) {
        self.gain *= GROWTH;
        if self.gain > MOST_GAIN {
            for activity in self.activities.iter_mut() {
                *activity /= MOST_GAIN;
            }
            self.gain = 1.0;
        }
    }
}
