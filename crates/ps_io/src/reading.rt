//! All bytes of a source.
ghost use Rattle.std.specs.Prelude.{◌≡◌, ℕ, IfOk, IfErr, IsErrOf};
ghost use Rattle.ps_io.specs.Causes.{CountsReadFault};
ghost use Rattle.ps_io.specs.Transfer.{ReadAll, TookBefore};

use crate::{LONGEST_READ, Source};
use std::alloc::Global;
use thiserror::Error;

/// Why not all bytes were read.
#[derive(Clone, Copy, Debug, PartialEq, Eq, Error)]
pub enum ReadAllError {
    /// A read failed.
    #[error("a read failed")]
    Fault,
    /// More than `limit` bytes came before the end and before any fault.
    #[error("more than {limit} bytes")]
    TooLong { limit: u64 },
    /// There was not enough memory.
    #[error("not enough memory")]
    NoMemory,
}

/// All bytes that a source has left, if they are at most `limit`. The source is then at its end.
/// Else no further read is made, and at most `limit` bytes and one read beyond them are taken.
pub fn read_all<I: Source>(
    alloc: Global,
    source: &mut I,
    limit: u64,
) -> Result<Vec<u8>, ReadAllError>
    ensures ok { IfOk result (λ v. ReadAll limit (I.left source.old) (I.left source.new) v.items) }
    ensures err { IfErr result (λ e. TookBefore e limit (I.left source.old) (I.left source.new)) }
    ensures faults { CountsReadFault result (I.faults source.old) (I.faults source.new) }
    ensures limit { (n : ℕ) → IsErrOf result (ReadAllError.TooLong n) → n ≡ limit }
{
    let mut all = Vec::new(alloc);
    let mut piece = [0u8; LONGEST_READ];
    loop {
        let n = match source.read(&mut piece) {
            Ok(n) => n,
            Err(_) => return Err(ReadAllError::Fault),
        };
        if n == 0 {
            return Ok(all);
        }
        if limit - (all.len() as u64) < n as u64 {
            return Err(ReadAllError::TooLong { limit });
        }
        if all.extend_from_slice(&piece[..n]).is_err() {
            return Err(ReadAllError::NoMemory);
        }
    }
}
