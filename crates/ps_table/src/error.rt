//! Why a change of a table is refused.
ghost use Rattle.std.specs.Prelude.{◌≡◌};

use crate::place::WideAt;
use ps_io::NoMemory;
use std::alloc::{AllocError, AllocFailed};
use thiserror::Error;

/// Why a change of a table was refused.
#[derive(Clone, Copy, PartialEq, Eq, Debug, Drop, Error)]
pub enum TableError {
    /// A number is too large: its place, operation and operands.
    #[error("a number of the table is too large")]
    Wide(WideAt),
    /// There was not enough memory.
    #[error("not enough memory")]
    NoMemory,
}

impl From<WideAt> for TableError {
    ghost use Rattle.ps_table.specs.declared.error.TableError.TheVariants as refused;

    ghost from_gives = { λ w e. e ≡ refused.Wide w };

    fn from(wide: WideAt) -> TableError {
        TableError::Wide(wide)
    }
}

impl<T: Drop> From<AllocFailed<T>> for TableError {
    ghost use Rattle.ps_table.specs.declared.error.TableError.TheVariants as refused;

    ghost from_gives = { λ _ e. e ≡ refused.NoMemory };

    fn from(_failed: AllocFailed<T>) -> TableError {
        TableError::NoMemory
    }
}

impl From<AllocError> for TableError {
    ghost use Rattle.ps_table.specs.declared.error.TableError.TheVariants as refused;

    ghost from_gives = { λ _ e. e ≡ refused.NoMemory };

    fn from(_failed: AllocError) -> TableError {
        TableError::NoMemory
    }
}

impl From<NoMemory> for TableError {
    ghost use Rattle.ps_table.specs.declared.error.TableError.TheVariants as refused;

    ghost from_gives = { λ _ e. e ≡ refused.NoMemory };

    fn from(_failed: NoMemory) -> TableError {
        TableError::NoMemory
    }
}
