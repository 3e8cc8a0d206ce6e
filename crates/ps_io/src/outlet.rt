//! A writer that notes whether its reader has gone.
ghost use Rattle.std.specs.Prelude.{◌≡◌, false};
ghost use Rattle.std.specs.Io.{WritesAtMost};
ghost use Rattle.std.specs.Io.KnownBytes.{Keeps};
ghost use Rattle.ps_io.specs.Readers.{IsKnownBehind, Notes, Writes, has_left, writer_of};

use std::io::{self, ErrorKind, Write};

/// A writer that notes whether its reader has gone, as that of a pipe goes that has read enough.
#[derive(Drop)]
pub struct Outlet<W> {
    writer: W,
    has_reader_gone: bool,
}

impl<W: Write> Outlet<W> {
    /// Over a writer whose reader hasn't gone as yet.
    pub fn new(writer: W) -> Outlet<W>
        ensures { has_left result ≡ false }
    {
        Outlet {
            writer,
            has_reader_gone: false,
        }
    }

    /// Whether a write found that the reader has gone.
    pub fn has_reader_gone(&self) -> bool
        ensures { result ≡ has_left self.now }
    {
        self.has_reader_gone
    }

    // Notes whether an error says that the reader has gone.
    fn note(&mut self, error: &io::Error)
        ensures writer { writer_of self.new ≡ writer_of self.old }
        ensures known { IsKnownBehind error.now (has_left self.old) (has_left self.new) }
    {
        if error.kind() == ErrorKind::BrokenPipe {
            self.has_reader_gone = true;
        }
    }
}

impl<W: Write> Write for Outlet<W> {
    ghost contents = { λ o. W.contents o.writer };

    fn write(&mut self, buf: &[u8]) -> io::Result<usize>
        ensures bound { WritesAtMost result buf.now }
        ensures bytes { Writes W.contents self.old self.new result buf.now }
        ensures noted { Notes result (has_left self.old) (has_left self.new) }
    {
        match self.writer.write(buf) {
            Ok(count) => Ok(count),
            Err(error) => {
                self.note(&error);
                Err(error)
            }
        }
    }

    fn flush(&mut self) -> io::Result<()>
        ensures bytes { Keeps (W.contents (writer_of self.old)) (W.contents (writer_of self.new)) }
        ensures noted { Notes result (has_left self.old) (has_left self.new) }
    {
        match self.writer.flush() {
            Ok(()) => Ok(()),
            Err(error) => {
                self.note(&error);
                Err(error)
            }
        }
    }
}
