//! How hard a search tries.

use crate::limits::{FEW_CONFLICTS, LIGHT_CONFLICTS, MANY_CONFLICTS};

/// How hard a search tries.
#[derive(Clone, Copy, PartialEq, Debug)]
pub(crate) enum Effort {
    /// It ends at the first conflict.
    Light,
    /// It makes few conflicts.
    Short,
    /// It makes many.
    Long,
}

impl Effort {
    /// How many conflicts a search makes, where so many are left in all.
    pub(crate) fn conflicts(self, left: u64) -> u64 {
        let wanted = match self {
            Effort::Light => LIGHT_CONFLICTS,
            Effort::Short => FEW_CONFLICTS,
            Effort::Long => MANY_CONFLICTS,
        };
        left.min(wanted)
    }
}
