//! All bytes of a source, judged as they come.
ghost use Rattle.std.specs.Prelude.{◌≡◌, ℕ, [], IfOk, IfErr, IsErrOf};
ghost use Rattle.ps_io.specs.Causes.{CountsReadFault};
ghost use Rattle.ps_io.specs.Transfer.{TookBefore};
ghost use Rattle.ps_check.specs.Checks.{HasChecked};
ghost use Rattle.std.specs.Prelude.{OnOk, OnErr, Err};
ghost use Rattle.ps_io.specs.declared.reading.ReadAllError.TheVariants as errors;
ghost use Rattle.ps_check.specs.Intakes.{IsSound, IsFound, HasTakenAll, Knows};

use crate::checked::Checked;
use crate::intake::Intake;
use ps_io::{LONGEST_READ, ReadAllError, Source};
use std::alloc::Global;

// What is found at the end of the bytes.
fn end_of_bytes(alloc: Global, intake: Intake) -> Result<Checked, ReadAllError>
    requires sound { IsSound intake }
    ensures found { IfOk result (IsFound intake) }
    ensures err { OnErr result (result ≡ Err errors.NoMemory) }
{
    intake.finish(alloc).map_err(|_| ReadAllError::NoMemory)
}

// Takes all bytes that a source has left, if they are at most `limit`.
fn take_all<I: Source>(
    alloc: Global,
    source: &mut I,
    limit: u64,
    intake: &mut Intake,
) -> Result<(), ReadAllError>
    requires none { Knows intake.old [] }
    requires sound { IsSound intake.old }
    ensures sound { OnOk result (IsSound intake.new) }
    ensures ok { OnOk result (HasTakenAll intake.new limit (I.left source.old)
        (I.left source.new)) }
    ensures err { IfErr result (λ e. TookBefore e limit (I.left source.old) (I.left source.new)) }
    ensures faults { CountsReadFault result (I.faults source.old) (I.faults source.new) }
    ensures limit { (n : ℕ) → IsErrOf result (ReadAllError.TooLong n) → n ≡ limit }
{
    let mut piece = [0u8; LONGEST_READ];
    let mut taken = 0u64;
    loop {
        let n = match source.read(&mut piece) {
            Ok(n) => n,
            Err(_) => return Err(ReadAllError::Fault),
        };
        if n == 0 {
            return Ok(());
        }
        if limit - taken < n as u64 {
            return Err(ReadAllError::TooLong { limit });
        }
        taken += n as u64;
        match intake.take(alloc, &piece[..n]) {
            Ok(()) => {}
            Err(_) => return Err(ReadAllError::NoMemory),
        }
    }
}

/// What is found of all bytes that a source has left, if they are at most `limit`. The source is
/// then at its end. Else no further read is made, and at most `limit` bytes and one read beyond
/// them are taken.
pub fn check_stream<I: Source>(
    alloc: Global,
    source: &mut I,
    limit: u64,
) -> Result<Checked, ReadAllError>
    // What is due for all the bytes that were left, which are within the limit.
    ensures ok { IfOk result (HasChecked limit (I.left source.old) (I.left source.new)) }
    // A fault and too many bytes come before all that is found; memory may run out at any byte.
    ensures err { IfErr result (λ e. TookBefore e limit (I.left source.old) (I.left source.new)) }
    ensures faults { CountsReadFault result (I.faults source.old) (I.faults source.new) }
    ensures limit { (n : ℕ) → IsErrOf result (ReadAllError.TooLong n) → n ≡ limit }
{
    let mut intake = Intake::new(alloc);
    take_all(alloc, source, limit, &mut intake)?;
    end_of_bytes(alloc, intake)
}
