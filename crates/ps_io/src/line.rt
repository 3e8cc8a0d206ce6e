//! A line that is being made.
ghost use Rattle.std.specs.Prelude.{◌≡◌, ◌≤◌, ◌+◌, ◌<◌, [], length, true, false};
ghost use Rattle.std.specs.Fmt.{signed_decimal};
ghost use Rattle.ps_io.specs.LineText.{number_length};
ghost use Rattle.ps_io.specs.LineKept.{KeptLine, add_word, bytes_of, emptied};
ghost use Rattle.ps_io.specs.Causes.{CountsFault};
ghost use Rattle.ps_io.specs.Transfer.{Writes};

use crate::buffer::Buffer;
use crate::limits::{LONGEST_LINE, LONGEST_NUMBER};
use crate::{Sink, WriteFault, write_all};
use std::marker::Model;

/// The text of a line, behind the mark that goes before it.
#[derive(Drop)]
pub(crate) struct Line {
    buffer: Buffer,
    start: usize,
    commented: bool,
}

impl Model for Line {
    ghost use Rattle.std.specs.Prelude.{drop};
    ghost use Rattle.ps_io.specs.LineKept.{KeptLine, IsMarkedText};

    ghost Value = { KeptLine };

    ghost view = { λ l. record { text = drop l.start l.buffer; commented = l.commented } };

    ghost invariant = { λ l. IsMarkedText l.commented l.start l.buffer };
}

impl Line {
    pub(crate) fn new() -> Line
        ensures { result ≡ record { text = []; commented = false } }
    {
        Line {
            buffer: Buffer::new(),
            start: 0,
            commented: false,
        }
    }

    /// From now on a mark goes before each line.
    pub(crate) fn comment(&mut self)
        requires { self.old.text ≡ [] }
        ensures { self.new ≡ record { text = []; commented = true } }
    {
        self.buffer.truncate(0);
        self.buffer.append(b"# ");
        self.start = 2;
        self.commented = true;
    }

    /// Adds a word, after a space where the line isn't empty.
    pub(crate) fn word(&mut self, text: &[u8])
        requires { length self.old.text + length text.now < LONGEST_LINE }
        ensures line { self.new ≡ add_word self.old text.now }
        ensures short { length self.new.text ≤ length self.old.text + length text.now + 1 }
    {
        if self.start < self.buffer.len() {
            self.buffer.push(b' ');
        }
        self.buffer.append(text);
    }

    /// Adds a number in decimal.
    pub(crate) fn number(&mut self, n: i128)
        requires { length self.old.text + number_length n < LONGEST_LINE }
        ensures line { self.new ≡ add_word self.old (signed_decimal n) }
        ensures short { length self.new.text ≤ length self.old.text + LONGEST_NUMBER + 1 }
    {
        let mut digits = itoa::Buffer::new();
        self.word(digits.format(n).as_bytes());
    }

    /// Writes the line and a line feed, and empties the line.
    pub(crate) fn end_line<O: Sink>(&mut self, sink: &mut O) -> Result<(), WriteFault>
        ensures line { self.new ≡ emptied self.old }
        ensures text { Writes result (O.written sink.old) (O.written sink.new) (bytes_of self.old) }
        ensures faults { CountsFault result (O.faults sink.old) (O.faults sink.new) }
    {
        self.buffer.push(b'\n');
        let written = write_all(sink, self.buffer.as_slice());
        self.buffer.truncate(self.start);
        written
    }
}
