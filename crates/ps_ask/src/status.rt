//! How the answer to an input ends.
ghost use Rattle.std.specs.Prelude.{◌≡◌};

/// How the answer to an input ends.
#[derive(Clone, Copy, Debug, PartialEq, Eq)]
pub enum Status {
    /// The sentences are consistent, and nothing is open.
    Done,
    /// The sentences are inconsistent.
    Inconsistent,
    /// The input is too long, or no problem.
    Unreadable,
    /// Some part of the answer is open.
    Unfinished,
    /// Time was over before the answer was whole. There is no report of it.
    Late,
    /// A read failed.
    ReadFault,
    /// What is shown could not be written whole.
    WriteFault,
    /// The report beside it could not be written whole.
    ReportFault,
    /// There was not enough memory.
    NoMemory,
}

impl Status {
    ghost use Rattle.ps_ask.specs.Statuses.{status_number};

    /// The number with which a program exits.
    pub fn number(self) -> u8
        ensures { result ≡ status_number self }
    {
        match self {
            Status::Done => 0,
            Status::Inconsistent => 1,
            Status::Unreadable => 3,
            Status::Unfinished | Status::Late => 4,
            Status::ReadFault => 5,
            Status::WriteFault | Status::ReportFault => 6,
            Status::NoMemory => 7,
        }
    }
}
