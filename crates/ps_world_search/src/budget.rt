//! How long a search goes on.

/// How many conflicts a search may still meet.
#[derive(Clone, Copy)]
pub(crate) struct Budget {
    left: u64,
}

impl Budget {
    /// So many conflicts.
    pub(crate) fn new(conflicts: u64) -> Budget {
        Budget { left: conflicts }
    }

    /// Whether one more conflict may be met; it is.
    pub(crate) fn spend(&mut self) -> bool {
        let may_go_on = self.left > 0;
        self.left = self.left.saturating_sub(1);
        may_go_on
    }
}

/// How many times a search may go on that meets so many conflicts: between two of them each time but the
/// last sets a literal more.
pub(crate) fn most_turns(conflicts: u64, variables: usize) -> u64 {
    conflicts
        .saturating_add(1)
        .saturating_mul((variables as u64).saturating_add(2))
}
