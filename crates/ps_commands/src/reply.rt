//! What is to be written.
ghost use Rattle.std.specs.Prelude.{◌≡◌};
ghost use Rattle.ps_commands.specs.Replies.{reply_status};

use crate::answered::status_of;
use crate::explained::status_explained;
use crate::made::MadeProblem;
use ps_answer::Answer;
use ps_explain::Explained;
use ps_max_commands::MaxReply;
use ps_messages::{Message, Status};

/// What is to be written.
#[derive(Drop)]
pub enum Reply {
    /// One line.
    Line(Message),
    /// The report of an answer.
    Report(Answer),
    /// An explanation.
    Explanation(Explained),
    /// A made problem with its summary.
    Made(MadeProblem),
    /// The text of a problem.
    Upgraded(Vec<u8>),
    /// What is answered of weighted clauses.
    Weighted(MaxReply),
}

impl Reply {
    /// The status after it.
    pub fn status(&self) -> Status
        ensures { result ≡ reply_status self.now }
    {
        match self {
            Reply::Line(message) => message.status,
            Reply::Report(answer) => status_of(answer),
            Reply::Explanation(explained) => status_explained(explained),
            Reply::Made(made) => made.status(),
            Reply::Upgraded(_) => Status::Done,
            Reply::Weighted(reply) => reply.status(),
        }
    }
}
