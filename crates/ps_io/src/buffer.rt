//! Bytes in one place of fixed size.
ghost use Rattle.std.specs.Prelude.{◌≡◌, ◌≤◌, ◌+◌, ◌<◌, ◌++◌, ◌∷◌, [], length, take};
ghost use Rattle.ps_io.specs.declared.buffer.TheConstants.{CAPACITY};

use crate::limits::LONGEST_LINE;
use std::marker::Model;

/// The longest line, with a mark of two bytes before it and a line feed after it.
pub(crate) const CAPACITY: usize = LONGEST_LINE + 3;

/// The bytes so far.
#[derive(Drop)]
pub(crate) struct Buffer {
    bytes: [u8; CAPACITY],
    len: usize,
}

impl Model for Buffer {
    ghost use Rattle.std.specs.Prelude.{ℕ, List, ◌≤◌, take};
    ghost use Rattle.ps_io.specs.declared.buffer.TheConstants.{CAPACITY};

    ghost Value = { List ℕ };

    ghost view = { λ b. take b.len b.bytes };

    ghost invariant = { λ b. b.len ≤ CAPACITY };
}

impl Buffer {
    pub(crate) fn new() -> Buffer
        ensures { result ≡ [] }
    {
        Buffer {
            bytes: [0; CAPACITY],
            len: 0,
        }
    }

    pub(crate) fn len(&self) -> usize
        ensures value { result ≡ length self.now }
        ensures bound { result ≤ CAPACITY }
    {
        self.len
    }

    pub(crate) fn as_slice(&self) -> &[u8]
        ensures { result.now ≡ self.now }
    {
        &self.bytes[..self.len]
    }

    /// Lets go of the bytes from a place on.
    pub(crate) fn truncate(&mut self, len: usize)
        requires { len ≤ length self.old }
        ensures { self.new ≡ take len self.old }
    {
        self.len = len;
    }

    pub(crate) fn push(&mut self, byte: u8)
        requires { length self.old < CAPACITY }
        ensures { self.new ≡ self.old ++ byte ∷ [] }
    {
        let len = self.len;
        self.bytes[len] = byte;
        self.len = len + 1;
    }

    pub(crate) fn append(&mut self, more: &[u8])
        requires { length self.old + length more.now ≤ CAPACITY }
        ensures { self.new ≡ self.old ++ more.now }
    {
        let len = self.len;
        self.bytes[len..len + more.len()].copy_from_slice(more);
        self.len = len + more.len();
    }
}
