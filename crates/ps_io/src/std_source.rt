//! Standard input as a source.
ghost use Rattle.std.specs.Prelude.{None, ◌≡◌};
ghost use Rattle.std.specs.Io.{ReadsAtMost};
ghost use Rattle.ps_io.specs.Causes.{CountsFault};
ghost use Rattle.ps_io.specs.Standard.{read_faults};

use crate::{ReadFault, Source};
use std::io::{Read, Stdin};

/// Standard input, or another reader. It tells no bytes.
#[derive(Drop)]
pub struct StdSource<R = Stdin> {
    reader: R,
    faults: u64,
}

impl<R: Read> StdSource<R> {
    /// A source over a reader. No read has failed yet.
    pub fn new(reader: R) -> StdSource<R>
        ensures { read_faults result ≡ 0 }
    {
        StdSource { reader, faults: 0 }
    }
}

impl<R: Read> Source for StdSource<R> {
    ghost left = { λ _. None };

    ghost faults = { λ s. s.faults };

    fn read(&mut self, buf: &mut [u8]) -> Result<usize, ReadFault>
        ensures bound { ReadsAtMost result buf.new }
        ensures faults { CountsFault result (read_faults self.old) (read_faults self.new) }
    {
        match self.reader.read(buf) {
            Ok(n) => Ok(n),
            Err(_) => {
                self.faults = self.faults.saturating_add(1);
                Err(ReadFault)
            }
        }
    }
}
