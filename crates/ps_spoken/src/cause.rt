//! Why a part is open, for people.
ghost use Rattle.std.specs.Prelude.{◌≡◌, OnOk};
ghost use Rattle.ps_canonical.specs.Lines.{Adds};
ghost use Rattle.ps_spoken.specs.Spoken.{cause_text, limit_text, out_of_time, pivots_text};

use crate::numbers::{append, number};
use ps_answer::Cause;
use ps_io::NoMemory;

/// A limit of pivots that no run has. It stands for a limit of time.
pub const OUT_OF_TIME: u64 = u64::MAX;

/// The cause of what wasn't finished within a limit of time.
pub fn out_of_time() -> Cause
    ensures { result ≡ out_of_time }
{
    Cause::Pivots { limit: OUT_OF_TIME }
}

// Writes a limit between words.
fn limit(out: &mut Vec<u8>, before: &[u8], limit: u64, behind: &[u8]) -> Result<(), NoMemory>
    ensures { OnOk result (Adds out.old.items out.new.items
        (limit_text before.now limit behind.now)) }
{
    append(out, before)?;
    number(out, i128::from(limit))?;
    append(out, behind)
}

// Writes that a run had no pivots left, or no time.
#[tactic(auto, unfolding(crate::specs::Spoken::pivots_text))]
fn pivots(out: &mut Vec<u8>, most: u64) -> Result<(), NoMemory>
    ensures { OnOk result (Adds out.old.items out.new.items (pivots_text most)) }
{
    if most == OUT_OF_TIME {
        return append(
            out,
            b"not finished within the time limit; allow more by --time-limit",
        );
    }
    limit(
        out,
        b"stopped at the limit of ",
        most,
        b" pivots; allow more by --pivots",
    )
}

/// Writes what stopped a part, and what to do about it.
pub(crate) fn write_cause(out: &mut Vec<u8>, cause: &Cause) -> Result<(), NoMemory>
    ensures { OnOk result (Adds out.old.items out.new.items (cause_text cause.now)) }
{
    match cause {
        Cause::Pivots { limit: most } => pivots(out, *most),
        Cause::Conflicts { limit: most, .. } => limit(
            out,
            b"a search stopped at the limit of ",
            *most,
            b" conflicts; allow more by --conflicts",
        ),
        Cause::Wide { .. } => append(
            out,
            b"a number needs more than 127 bits; values of fewer digits may help",
        ),
    }
}
