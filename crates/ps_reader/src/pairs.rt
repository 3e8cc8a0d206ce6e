//! Two readings at once.
ghost use Rattle.std.specs.Prelude.{◌≡◌};
ghost use Rattle.ps_reader.specs.Read.{both};

use crate::line_fault::LineFault;

/// Both of two readings, or why not; that something isn't written so comes before that it is too
/// large.
pub fn both<A: Drop, B: Drop>(
    first: Result<A, LineFault>,
    second: Result<B, LineFault>,
) -> Result<(A, B), LineFault>
    ensures { result ≡ both first second }
{
    match (first, second) {
        (Ok(a), Ok(b)) => Ok((a, b)),
        (Ok(_), Err(why)) => Err(why),
        (Err(LineFault::TooLarge), Err(why)) => Err(why),
        (Err(why), _) => Err(why),
    }
}
