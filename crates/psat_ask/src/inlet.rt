//! A reader that notes why a read failed.
ghost use Rattle.std.specs.Io.{ReadsAtMost};

use std::io::{self, ErrorKind, Read};

/// A reader that notes why a read failed.
#[derive(Drop)]
pub struct Inlet<R> {
    reader: R,
    why: Option<ErrorKind>,
}

impl<R: Read> Inlet<R> {
    /// Over a reader of which no read has failed as yet.
    pub fn new(reader: R) -> Inlet<R> {
        Inlet { reader, why: None }
    }

    /// Why the last read that failed did.
    pub fn why(&self) -> Option<ErrorKind> {
        self.why
    }
}

impl<R: Read> Read for Inlet<R> {
    fn read(&mut self, buf: &mut [u8]) -> io::Result<usize>
        ensures bound { ReadsAtMost result buf.new }
    {
        match self.reader.read(buf) {
            Ok(count) => Ok(count),
            Err(error) => {
                self.why = Some(error.kind());
                Err(error)
            }
        }
    }
}
