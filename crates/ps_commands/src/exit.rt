//! How the program begins and ends: the words that the system hands out, and the exit code.
ghost use Rattle.std.specs.Prelude.{◌≡◌, drop, Err, IfErr, IfNone, IfOk, IfSome, IsErr, None, Some};
ghost use Rattle.std.specs.Process.{exit_status};
ghost use Rattle.std.specs.Vec.Iter.{into_iter_items};
ghost use Rattle.ps_commands.specs.Commands.{ReadNothing, SpellNone, words_of};
ghost use Rattle.ps_commands.specs.Exits.{IfRan, exit_number, failure_words};
ghost use Rattle.std.specs.IoError.{error_kind};
ghost use Rattle.ps_commands.specs.Runs.{CountsReads, CountsWrites, HasAnswered, HasRead, Ran};
ghost use Rattle.ps_commands.specs.Statuses.{AnswersUsage, IsSilent};

use crate::running::run;
use ps_io::{Sink, Source};
use ps_messages::Status;
use std::alloc::{AllocError, Global};
use std::env::Args;
use std::io::{self, ErrorKind};
use std::process::ExitCode;

/// Why the words can't be had.
#[derive(Clone, Copy, Debug, PartialEq, Eq)]
pub enum NoWords {
    /// The system doesn't hand them out, for this cause.
    Refused(ErrorKind),
    /// There was not enough memory to hold them.
    NoMemory,
}

impl From<AllocError> for NoWords {
    ghost use Rattle.ps_commands.specs.declared.exit.NoWords.TheVariants as none;

    ghost from_gives = { λ _ e. e ≡ none.NoMemory };

    fn from(_: AllocError) -> NoWords {
        NoWords::NoMemory
    }
}

// All words, in order.
fn collect(alloc: Global, all: Args) -> Result<Vec<String>, AllocError>
    ensures { IfOk result (λ words. words.items ≡ into_iter_items all) }
{
    let mut words = Vec::new(alloc);
    for word in all {
        words.push(word)?;
    }
    Ok(words)
}

/// The words behind the first, which is the program's name.
pub fn behind_name(all: &[String]) -> &[String]
    ensures { result.now ≡ drop 1 all.now }
{
    match all {
        [] => all,
        [_, words @ ..] => words,
    }
}

/// The program, run on all words that the system hands out.
pub fn run_program<I: Source, O: Sink>(
    alloc: Global,
    all: io::Result<Args>,
    source: &mut I,
    sink: &mut O,
) -> Result<Status, NoWords>
    // Where the system refuses the words, the cause is answered, and else want of memory alone may
    // take the status's place. Then nothing is read or written.
    ensures refused { IfErr all (λ e. result ≡ Err (NoWords.Refused (error_kind e))) }
    ensures no_memory { IfOk all (λ args. IfErr result (λ why. why ≡ NoWords.NoMemory)) }
    ensures nothing_read { IsErr result → source.new ≡ source.old }
    ensures nothing_written { IsErr result → sink.new ≡ sink.old }

    // Else all that holds of a run holds with the words behind the program's name: what is written,
    ensures ran { IfRan all result
        (Ran (I.left source.old) (O.written sink.old) (O.written sink.new)) }
    ensures silent { IfOk result (λ status. IsSilent status → sink.new ≡ sink.old) }

    // when the usage line comes,
    ensures usage { IfRan all result (λ words s. s ≡ Status.Usage → SpellNone (words_of words)) }
    ensures other_words { IfRan all result
        (λ words s. SpellNone (words_of words) → AnswersUsage s) }

    // which statuses the command has,
    ensures answered { IfRan all result HasAnswered }

    // how much is read,
    ensures read { IfRan all result (HasRead (I.left source.old) (I.left source.new)) }
    ensures unread { IfRan all result (λ words s. ReadNothing words → source.new ≡ source.old) }

    // and that a fault is answered exactly where a count rose, and then by one.
    ensures read_faults { IfOk result (CountsReads (I.faults source.old) (I.faults source.new)) }
    ensures write_faults { IfOk result (CountsWrites (O.faults sink.old) (O.faults sink.new)) }
{
    let all = match all {
        Ok(all) => collect(alloc, all)?,
        Err(error) => return Err(NoWords::Refused(error.kind())),
    };
    Ok(run(alloc, behind_name(&all), source, sink))
}

/// What `main` tells of a failure, or None where the due text was written.
pub fn failure(ended: Result<Status, NoWords>) -> Option<&'static str>
    ensures none { IfNone result (failure_words ended ≡ None) }
    ensures some { IfSome result (λ text. failure_words ended ≡ Some text.now) }
{
    match ended {
        Ok(Status::ReadFault) => Some("standard input failed"),
        Ok(Status::WriteFault) => Some("standard output failed"),
        Ok(Status::NoMemory) => Some("not enough memory"),
        Ok(_) => None,
        Err(NoWords::Refused(_)) => Some("the arguments can't be had"),
        Err(NoWords::NoMemory) => Some("not enough memory"),
    }
}

// The exit code where the words can't be had.
const NO_WORDS: u8 = 10;

/// The exit code after a run, or where the words can't be had.
pub fn exit_code(ended: Result<Status, NoWords>) -> ExitCode
    ensures { exit_status result ≡ exit_number ended }
{
    match ended {
        Ok(status) => ExitCode::from(status.number()),
        Err(_) => ExitCode::from(NO_WORDS),
    }
}
