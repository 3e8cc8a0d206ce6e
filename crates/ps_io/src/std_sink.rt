//! Standard output as a sink.
ghost use Rattle.std.specs.Prelude.{None, length, ◌≡◌, ◌<◌, IfOk, OnOk, false};
ghost use Rattle.std.specs.Io.{WritesAtMost};
ghost use Rattle.ps_io.specs.Causes.{CountsFault};
ghost use Rattle.ps_io.specs.Standard.{is_pending, write_faults};

use crate::pending::Pending;
use crate::{Sink, WriteFault};
use std::io;
use std::io::{ErrorKind, Stdout, Write};

/// Standard output, or another writer, flushed within each write. It tells no bytes.
#[derive(Drop)]
pub struct StdSink<W = Stdout> {
    writer: Pending<W>,
    faults: u64,
}

impl<W: Write> StdSink<W> {
    /// A sink over a writer. No write has failed yet.
    pub fn new(writer: W) -> StdSink<W>
        ensures { write_faults result ≡ 0 }
    {
        StdSink {
            writer: Pending::new(writer),
            faults: 0,
        }
    }
}

impl<W: Write> Sink for StdSink<W> {
    ghost written = { λ _. None };

    ghost faults = { λ s. s.faults };

    fn write(&mut self, buf: &[u8]) -> Result<usize, WriteFault>
        ensures bound { WritesAtMost result buf.now }
        ensures some { IfOk result (λ n. 0 < length buf.now → 0 < n) }
        ensures flushed { OnOk result (is_pending self.new ≡ false) }
        ensures faults { CountsFault result (write_faults self.old) (write_faults self.new) }
    {
        match write_through(&mut self.writer, buf) {
            Ok(n) => Ok(n),
            Err(_) => {
                self.faults = self.faults.saturating_add(1);
                Err(WriteFault)
            }
        }
    }
}

// A write that takes nothing of a nonempty `buf` counts as an error.
fn write_through<W: Write>(writer: &mut Pending<W>, buf: &[u8]) -> io::Result<usize>
    ensures bound { WritesAtMost result buf.now }
    ensures some { IfOk result (λ n. 0 < length buf.now → 0 < n) }
    ensures flushed { OnOk result (writer.new.pending ≡ false) }
{
    let n = writer.write(buf)?;
    writer.flush()?;
    if n == 0 && !buf.is_empty() {
        return Err(ErrorKind::WriteZero.into());
    }
    Ok(n)
}
