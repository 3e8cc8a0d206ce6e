//! The verdict, for people.
ghost use Rattle.std.specs.Prelude.{OnOk};
ghost use Rattle.ps_canonical.specs.Lines.{Adds};
ghost use Rattle.ps_spoken.specs.Spoken.{verdict_text};

use crate::cause::write_cause;
use crate::numbers::append;
use ps_answer::Verdict;
use ps_io::NoMemory;

/// Writes the verdict.
pub fn write_verdict(out: &mut Vec<u8>, verdict: &Verdict) -> Result<(), NoMemory>
    ensures { OnOk result (Adds out.old.items out.new.items (verdict_text verdict.now)) }
{
    match verdict {
        Verdict::Consistent(_) => {
            append(out, b"consistent: some distribution meets all sentences\n")
        }
        Verdict::Inconsistent(_) => {
            append(out, b"inconsistent: no distribution meets all sentences\n")
        }
        Verdict::Open(cause) => {
            append(
                out,
                b"open: whether a distribution meets all sentences isn't known; ",
            )?;
            write_cause(out, cause)?;
            append(out, b"\n")
        }
    }
}
