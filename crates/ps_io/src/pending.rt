//! A writer that may hold bytes back.
ghost use Rattle.std.specs.Prelude.{◌≡◌, OnOk, true, false};
ghost use Rattle.std.specs.Io.{WritesAtMost};

use std::io;
use std::io::Write;

/// A writer, and whether it may hold bytes back.
#[derive(Drop)]
pub(crate) struct Pending<W> {
    writer: W,
    pending: bool,
}

impl<W: Write> Pending<W> {
    pub(crate) fn new(writer: W) -> Pending<W>
        ensures { result.pending ≡ false }
    {
        Pending {
            writer,
            pending: false,
        }
    }

    /// From now on bytes may be held back.
    pub(crate) fn write(&mut self, buf: &[u8]) -> io::Result<usize>
        ensures bound { WritesAtMost result buf.now }
        ensures held { self.new.pending ≡ true }
    {
        self.pending = true;
        self.writer.write(buf)
    }

    /// At Ok none are held back.
    pub(crate) fn flush(&mut self) -> io::Result<()>
        ensures { OnOk result (self.new.pending ≡ false) }
    {
        self.writer.flush()?;
        self.pending = false;
        Ok(())
    }
}
