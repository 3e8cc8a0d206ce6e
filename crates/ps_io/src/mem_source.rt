//! A source in memory, whose calls fail by a list.
ghost use Rattle.std.specs.Prelude.{◌≡◌, ◌≤◌, ◌<◌, ◌++◌, ◌↔◌, [], Some, length, take, Contains};
ghost use Rattle.std.specs.Prelude.{OnErr, IfOk, IsErr};
ghost use Rattle.std.specs.Io.{ReadsAtMost};
ghost use Rattle.ps_io.specs.Causes.{CountsFault, next_count};
ghost use Rattle.ps_io.specs.Memory.{unread, read_count, after_read, after_read_fault};

use crate::{ReadFault, Source};
use std::marker::Model;

/// Gives at most `piece` bytes a call, and fails at the calls whose numbers, from 1, are in a list.
#[derive(Drop)]
pub struct MemSource {
    bytes: Vec<u8>,
    at: usize,
    piece: u64,
    failing: Vec<u64>,
    calls: u64,
    faults: u64,
}

impl Model for MemSource {
    ghost use Rattle.std.specs.Prelude.{◌≤◌, length, drop};
    ghost use Rattle.ps_io.specs.Memory.{KnownSource};

    ghost Value = { KnownSource };

    ghost view = { λ s. record {
      left = drop s.at s.bytes.items;
      piece = s.piece;
      failing = s.failing.items;
      calls = s.calls;
      faults = s.faults;
    } };

    ghost invariant = { λ s. (s.at ≤ length s.bytes.items) × (1 ≤ s.piece) };
}

impl MemSource {
    /// A source of these bytes that has not been called.
    pub fn new(bytes: Vec<u8>, piece: u64, failing: Vec<u64>) -> MemSource
        requires { 1 ≤ piece }
        ensures { result ≡ unread bytes.items piece failing.items }
    {
        MemSource {
            bytes,
            at: 0,
            piece,
            failing,
            calls: 0,
            faults: 0,
        }
    }
}

impl Source for MemSource {
    ghost left = { λ s. Some s.left };

    ghost faults = { λ s. s.faults };

    fn read(&mut self, buf: &mut [u8]) -> Result<usize, ReadFault>
        ensures bound { ReadsAtMost result buf.new }
        ensures ok { IfOk result (λ n. self.old.left ≡ take n buf.new ++ self.new.left) }
        ensures at_end { IfOk result (λ n. n ≡ 0 → 0 < length buf.new → self.new.left ≡ []) }
        ensures faults { CountsFault result self.old.faults self.new.faults }

        // It fails exactly at the calls of the list.
        ensures fails { IsErr result ↔ Contains self.old.failing (next_count self.old.calls) }
        ensures err { OnErr result (self.new ≡ after_read_fault self.old) }

        // Else it gives as many bytes as there are, as a call may give, and as there is room for.
        ensures count { IfOk result (λ n. n ≡ read_count self.old (length buf.old)) }
        ensures left { IfOk result (λ n. self.new ≡ after_read self.old n) }
    {
        self.calls = self.calls.saturating_add(1);
        if self.failing.contains(&self.calls) {
            self.faults = self.faults.saturating_add(1);
            return Err(ReadFault);
        }
        let rest = &self.bytes[self.at..];
        let most = self.piece as usize;
        let n = rest.len().min(buf.len()).min(most);
        buf[..n].copy_from_slice(&rest[..n]);
        self.at += n;
        Ok(n)
    }
}
