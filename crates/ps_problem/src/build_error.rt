//! Why no problem is made of a draft.
ghost use Rattle.std.specs.Prelude.{◌≡◌, Some};
ghost use Rattle.ps_problem.specs.Builds.{item_excess_of};

use crate::excess::Excess;
use ps_io::NoMemory;
use thiserror::Error;

/// The first limit that a draft's items pass, and the item that passes it, from 1 in the draft's
/// order; or there was not enough memory.
#[derive(Clone, Copy, Debug, PartialEq, Eq, Error)]
pub enum BuildError {
    /// With the item there are more than `MOST_ATOMS` atoms.
    #[error("too many atoms at item {item}")]
    TooManyAtoms { item: u32 },
    /// With the item there are more than `MOST_NODES` nodes.
    #[error("too many nodes at item {item}")]
    TooManyNodes { item: u32 },
    /// With the item there are more than `MOST_BOUNDS` bounds.
    #[error("too many bounds at item {item}")]
    TooManyBounds { item: u32 },
    /// With the item there are more than `MOST_QUERIES` queries.
    #[error("too many queries at item {item}")]
    TooManyQueries { item: u32 },
    /// The scale of the item, a linear sentence, is more than `GREATEST_SCALE`, or the sizes of a
    /// bound's whole numbers sum to more than `MOST_SIZES`.
    #[error("linear sentence too large at item {item}")]
    LinearTooLarge { item: u32 },
    /// There was not enough memory.
    #[error("not enough memory")]
    NoMemory,
}

impl BuildError {
    // The error of an excess at an item.
    pub(crate) fn too_many(excess: Excess, item: u32) -> BuildError
        ensures { item_excess_of result ≡ Some (record { excess = excess; item = item }) }
    {
        match excess {
            Excess::Atoms => BuildError::TooManyAtoms { item },
            Excess::Nodes => BuildError::TooManyNodes { item },
            Excess::Bounds => BuildError::TooManyBounds { item },
            Excess::Queries => BuildError::TooManyQueries { item },
            Excess::Numbers => BuildError::LinearTooLarge { item },
        }
    }
}

impl From<NoMemory> for BuildError {
    ghost use Rattle.ps_problem.specs.declared.build_error.BuildError.TheVariants as errors;

    ghost from_gives = { λ _ e. e ≡ errors.NoMemory };

    fn from(_: NoMemory) -> BuildError {
        BuildError::NoMemory
    }
}
