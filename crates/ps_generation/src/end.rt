//! How a phase ends.
ghost use Rattle.std.specs.Prelude.{◌≡◌, IfOk, IfErr};
ghost use Rattle.ps_generation.specs.Phases.{IsEndAt, IsPrintedEnd};

use ps_answer::{Cause, Dual};
use ps_io::NoMemory;
use ps_table::TableError;

/// How a phase ends.
#[derive(Drop)]
pub enum End {
    /// Phase one is over: each basic artificial has value 0.
    Feasible,
    /// No column improves, and no world's would: the dual shows it.
    NoneAbove(Dual),
    /// A limit was reached, which the cause tells; nothing is claimed.
    Open(Cause),
}

/// The end at a number that is too wide, unless memory ran out.
pub(crate) fn end_at(refused: TableError) -> Result<End, NoMemory>
    ensures end { IfOk result (IsEndAt refused) }
    ensures printed { IfOk result IsPrintedEnd }
    ensures memory { IfErr result (λ _. refused ≡ TableError.NoMemory) }
{
    match refused {
        TableError::Wide(at) => {
            // Called for their clauses: the operands can be printed.
            at.left.fits();
            at.right.fits();
            Ok(End::Open(Cause::Wide { at }))
        }
        TableError::NoMemory => Err(NoMemory),
    }
}
