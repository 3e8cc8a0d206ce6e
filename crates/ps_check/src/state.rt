//! How far a report has come.
ghost use Rattle.std.specs.Prelude.{IfOk, IfErr};
ghost use Rattle.ps_check.specs.DueLines.{HasFeed, IsLineTaken, IsLineAtFault};
ghost use Rattle.ps_check.specs.States.{IsReadOn};

use crate::due::Due;
use crate::progress::Progress;
use ps_answer::{LineItem, LineKind};
use ps_io::NoMemory;
use ps_problem::Problem;
use ps_reader::{LineError, read_line};
use std::alloc::Global;

/// How far a report has come.
#[derive(Drop)]
pub(crate) enum State {
    /// No line so far is at fault.
    Reading { due: Due, progress: Progress },
    /// The first line at fault.
    AtFault { kind: LineKind, line: u64 },
    /// Memory ran out.
    OutOfMemory,
}

// What the line says, where the next part is due; then what is due behind it comes next.
fn take_line(alloc: Global, due: &mut Due, line: &[u8]) -> Result<LineItem, LineError>
    requires feed { HasFeed line.now }
    ensures taken { IfOk result (λ i. IsLineTaken line.now due.old i due.new) }
    ensures fault { IfErr result (IsLineAtFault due.old line.now) }
{
    let Some(part) = due.next() else {
        return Err(LineError::Fault(LineKind::MoreAfterEnd));
    };
    match read_line(alloc, part, line) {
        Ok((item, _)) => match due.pass(&item) {
            Ok(()) => Ok(item),
            Err(NoMemory) => Err(LineError::NoMemory),
        },
        Err(error) => Err(error),
    }
}

/// How far a report has come behind a line more, given with its line feed, and by its number.
pub(crate) fn read_on(
    alloc: Global,
    mut due: Due,
    mut progress: Progress,
    problem: &Problem,
    line: &[u8],
    number: u64,
) -> Result<State, NoMemory>
    requires feed { HasFeed line.now }
    ensures { IfOk result (IsReadOn problem.now due progress line.now number) }
{
    match take_line(alloc, &mut due, line) {
        Ok(item) => {
            progress.take(alloc, problem, item)?;
            Ok(State::Reading { due, progress })
        }
        Err(LineError::Fault(kind)) => Ok(State::AtFault { kind, line: number }),
        Err(LineError::NoMemory) => Err(NoMemory),
    }
}
