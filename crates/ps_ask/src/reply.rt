//! What is to be written at the end, or why nothing is.
ghost use Rattle.std.specs.Prelude.{◌≡◌};
ghost use Rattle.ps_ask.specs.Replies as replies;

use crate::answered::status_of;
use crate::status::Status;
use ps_answer::Answer;

/// What is to be written at the end.
#[derive(Drop)]
pub enum Reply {
    /// Nothing: the input is too long, or no problem.
    Nothing,
    /// An answer, with the text that is shown at its end: which sentences clash, an object, or
    /// nothing.
    Text { answer: Answer, text: Vec<u8> },
    /// An answer, by its report.
    Report(Answer),
}

impl Reply {
    /// The status after it, where time was limited or not.
    pub fn status(&self, timed: bool) -> Status
        ensures { result ≡ replies.status_of timed self.now }
    {
        match self {
            Reply::Nothing => Status::Unreadable,
            Reply::Text { answer, .. } => status_of(timed, answer),
            Reply::Report(answer) => status_of(timed, answer),
        }
    }
}

/// Why there is no reply.
#[derive(Clone, Copy, Debug, PartialEq, Eq)]
pub enum ReplyError {
    /// A read failed.
    ReadFault,
    /// What is shown could not be written whole.
    WriteFault,
    /// There was not enough memory.
    NoMemory,
}

impl ReplyError {
    /// The status that takes the place of the reply's.
    pub fn status(self) -> Status
        ensures { result ≡ replies.status_without self }
    {
        match self {
            ReplyError::ReadFault => Status::ReadFault,
            ReplyError::WriteFault => Status::WriteFault,
            ReplyError::NoMemory => Status::NoMemory,
        }
    }
}
