//! What is to be written.
ghost use Rattle.std.specs.Prelude.{◌≡◌};
ghost use Rattle.ps_max_commands.specs.Lines.{status_of};
ghost use Rattle.ps_max_commands.specs.Replies.{output_of};

use ps_max_answer::MaxAnswer;
use ps_messages::{Message, Status};

/// What is to be written.
#[derive(Drop)]
pub enum MaxReply {
    /// One line.
    Line(Message),
    /// The text of an answer.
    Answer(MaxAnswer),
}

fn status_after(answer: &MaxAnswer) -> Status
    ensures { result ≡ status_of answer.now }
{
    match answer {
        MaxAnswer::Optimum { .. } => Status::Done,
        MaxAnswer::Unsatisfiable { .. } => Status::Inconsistent,
        MaxAnswer::Open { .. } => Status::Unfinished,
    }
}

impl MaxReply {
    /// The status after it.
    pub fn status(&self) -> Status
        ensures { result ≡ (output_of self.now).status }
    {
        match self {
            MaxReply::Line(message) => message.status,
            MaxReply::Answer(answer) => status_after(answer),
        }
    }
}
