//! The exact values of an answer alone.
ghost use Rattle.std.specs.Prelude.{OnOk};
ghost use Rattle.ps_canonical.specs.Lines.{Adds};
ghost use Rattle.ps_spoken.specs.Exact.{exact_value, query_exact};

use crate::numbers::{append, fraction};
use ps_answer::{QueryAnswer, SideAnswer};
use ps_io::NoMemory;

// Writes a bound as a fraction.
fn bound(out: &mut Vec<u8>, side: &SideAnswer) -> Result<(), NoMemory>
    ensures { OnOk result (Adds out.old.items out.new.items (exact_value side.now)) }
{
    match side {
        SideAnswer::Bound { value, .. } => fraction(out, value),
        SideAnswer::Open(_) => append(out, b"?"),
    }
}

/// Writes the exact bounds of a query in one line, as fractions in lowest terms. A `?` stands for a
/// side that is open.
pub fn write_query_exact(out: &mut Vec<u8>, answer: &QueryAnswer) -> Result<(), NoMemory>
    ensures { OnOk result (Adds out.old.items out.new.items (query_exact answer.now)) }
{
    match answer {
        QueryAnswer::Bounds { lower, upper, .. } => {
            bound(out, lower)?;
            append(out, b" ")?;
            bound(out, upper)?;
            append(out, b"\n")
        }
        QueryAnswer::Impossible(_) => append(out, b"impossible\n"),
        QueryAnswer::Open(_) => append(out, b"? ?\n"),
    }
}
