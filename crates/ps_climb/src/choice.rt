//! The choice of a neighbour.

use crate::draw::Draw;

/// The neighbour of the greatest value, of those offered so far; of equal ones each as likely.
#[derive(Clone, Copy)]
pub(crate) struct Choice {
    atom: Option<usize>,
    value: f64,
    equal: u64,
    /// Values that differ by no more count as equal.
    tolerance: f64,
}

impl Choice {
    /// None yet.
    pub(crate) fn none(tolerance: f64) -> Choice {
        Choice {
            atom: None,
            value: f64::MIN,
            equal: 0,
            tolerance,
        }
    }

    /// Offers the neighbour in which an atom is turned.
    pub(crate) fn offer(&mut self, atom: usize, value: f64, draw: &mut Draw) {
        if value > self.value + self.tolerance {
            self.atom = Some(atom);
            self.value = value;
            self.equal = 1;
        } else if value >= self.value - self.tolerance {
            self.equal = self.equal.saturating_add(1);
            if draw.below(self.equal) == 0 {
                self.atom = Some(atom);
            }
        }
    }

    /// The atom that is turned in it.
    pub(crate) fn atom(self) -> Option<usize> {
        self.atom
    }
}
