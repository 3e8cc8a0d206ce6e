//! Why a log refuses.
use ps_io::NoMemory as Lack;
use thiserror::Error;

/// Why a log refuses.
#[derive(Clone, Copy, Debug, PartialEq, Eq, Error, Drop)]
pub enum LogError {
    /// A write failed.
    #[error("a write failed")]
    Fault,
    /// There was not enough memory.
    #[error("not enough memory")]
    NoMemory,
}

impl From<Lack> for LogError {
    ghost use Rattle.std.specs.Prelude.{◌≡◌};
    ghost use Rattle.ps_log.specs.declared.error.LogError.TheVariants.{NoMemory};

    ghost from_gives = { λ _ e. e ≡ NoMemory };

    fn from(_: Lack) -> LogError {
        LogError::NoMemory
    }
}
