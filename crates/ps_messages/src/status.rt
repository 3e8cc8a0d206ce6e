//! How the program ends.
ghost use Rattle.std.specs.Prelude.{◌≡◌};

/// How the program ends.
#[derive(Clone, Copy, Debug, PartialEq, Eq)]
pub enum Status {
    /// `check`: each claim of the report is valid. `solve`: the sentences are consistent, and
    /// nothing is open. `explain`: they are consistent. `make`: nothing is open. `upgrade`: the text
    /// was read. `maxsat`: an optimum is written. `check-maxsat`: the answer isn't refused.
    Done,
    /// `solve`, `explain`: the sentences are inconsistent. `maxsat`: no assignment is allowed.
    Inconsistent,
    /// The words are not those of a command.
    Usage,
    /// The input is too long, or no problem, or no weighted clauses, stand where they have to.
    Unreadable,
    /// `solve`, `explain`, `make`, `maxsat`: some part of the answer is open.
    Unfinished,
    /// A read failed.
    ReadFault,
    /// A write failed.
    WriteFault,
    /// There was not enough memory.
    NoMemory,
    /// `check`: the bytes behind the problem are no report, or a claim of it is not valid.
    /// `check-maxsat`: the bytes behind the clauses are no answer, or there is a reason against it.
    Refused,
}

impl Status {
    ghost use Rattle.ps_messages.specs.Statuses.{status_number};

    /// The number with which the program exits.
    pub fn number(self) -> u8
        ensures { result ≡ status_number self }
    {
        match self {
            Status::Done => 0,
            Status::Inconsistent => 1,
            Status::Usage => 2,
            Status::Unreadable => 3,
            Status::Unfinished => 4,
            Status::ReadFault => 5,
            Status::WriteFault => 6,
            Status::NoMemory => 7,
            Status::Refused => 8,
        }
    }
}
