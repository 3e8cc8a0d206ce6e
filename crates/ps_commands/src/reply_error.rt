//! Why there is no reply.
use ps_io::NoMemory;
use ps_messages::Status;
use std::alloc::AllocError;

/// Why there is no reply.
#[derive(Clone, Copy, Debug, PartialEq, Eq)]
pub enum ReplyError {
    /// A read failed.
    ReadFault,
    /// There was not enough memory.
    NoMemory,
}

impl ReplyError {
    ghost use Rattle.std.specs.Prelude.{◌≡◌};
    ghost use Rattle.ps_commands.specs.Replies.{status_without_reply};

    /// The status that takes the place of the reply's.
    pub fn status(self) -> Status
        ensures { result ≡ status_without_reply self }
    {
        match self {
            ReplyError::ReadFault => Status::ReadFault,
            ReplyError::NoMemory => Status::NoMemory,
        }
    }
}

impl From<NoMemory> for ReplyError {
    ghost use Rattle.std.specs.Prelude.{◌≡◌};
    ghost use Rattle.ps_commands.specs.declared.reply_error.ReplyError.TheVariants as errors;

    ghost from_gives = { λ _ e. e ≡ errors.NoMemory };

    fn from(_: NoMemory) -> ReplyError {
        ReplyError::NoMemory
    }
}

impl From<AllocError> for ReplyError {
    ghost use Rattle.std.specs.Prelude.{◌≡◌};
    ghost use Rattle.ps_commands.specs.declared.reply_error.ReplyError.TheVariants as errors;

    ghost from_gives = { λ _ e. e ≡ errors.NoMemory };

    fn from(_: AllocError) -> ReplyError {
        ReplyError::NoMemory
    }
}
