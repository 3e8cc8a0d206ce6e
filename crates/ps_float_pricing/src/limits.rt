//! Limits of a pricing.

/// How many conflicts a light search makes.
pub(crate) const LIGHT_CONFLICTS: u64 = 0;

/// Of so many atoms each world is looked at where local search finds none.
pub(crate) const FEW_ATOMS: u16 = 16;

/// How many conflicts a search makes at first.
pub(crate) const FEW_CONFLICTS: u64 = 30;

/// How many conflicts the last search of a pricing makes at most.
pub(crate) const MANY_CONFLICTS: u64 = 5_000;

/// How many conflicts all searches make at most, so that a problem that is too hard is given up.
pub(crate) const ALL_CONFLICTS: u64 = 50_000;

/// How many searches a pricing makes at most.
pub(crate) const MOST_SEARCHES: u32 = 10;

/// How many searches look for a world within a face at most.
pub(crate) const FACE_SEARCHES: u32 = 6;

/// The largest weight of a goal in whole numbers.
pub(crate) const LARGEST_WEIGHT: f64 = 1_099_511_627_776.0;

/// How many steps a local search makes at most, besides two for each atom.
pub(crate) const MORE_STEPS: u32 = 20;

/// The seed of the local search.
pub(crate) const SEED: u64 = 12345;
