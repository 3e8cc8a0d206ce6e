//! A sink in memory, whose calls fail by a list and where its room is used up.
ghost use Rattle.std.specs.Prelude.{◌≡◌, ◌≤◌, ◌<◌, ◌↔◌, Some, length, take, OnErr, IfOk, IsErr};
ghost use Rattle.std.specs.Io.{WritesAtMost};
ghost use Rattle.ps_io.specs.Causes.{CountsFault};
ghost use Rattle.ps_io.specs.Memory.{IsNextFault, unwritten, write_count};
ghost use Rattle.ps_io.specs.Memory.{after_write, after_write_fault};

use crate::{NoMemory, Sink, WriteFault};
use std::alloc::Global;
use std::marker::Model;

/// Takes at most `piece` bytes a call and `room` in all, and fails at the calls whose numbers, from
/// 1, are in a list.
#[derive(Drop)]
pub struct MemSink {
    bytes: Vec<u8>,
    piece: u64,
    failing: Vec<u64>,
    room: u64,
    calls: u64,
    faults: u64,
}

impl Model for MemSink {
    ghost use Rattle.std.specs.Prelude.{◌≤◌, length, vec_capacity};
    ghost use Rattle.ps_io.specs.Memory.{KnownSink};

    ghost Value = { KnownSink };

    ghost view = { λ s. record {
      written = s.bytes.items;
      piece = s.piece;
      failing = s.failing.items;
      room = s.room;
      calls = s.calls;
      faults = s.faults;
    } };

    ghost invariant = { λ s.
        (1 ≤ s.piece) × (length s.bytes.items ≤ s.room) × (s.room ≤ vec_capacity s.bytes) };
}

impl MemSink {
    /// A sink that holds nothing and has not been called. All of its room is taken here.
    pub fn new(alloc: Global, piece: u64, failing: Vec<u64>, room: u64) -> Result<MemSink, NoMemory>
        requires { 1 ≤ piece }
        ensures { IfOk result (λ s. s ≡ unwritten piece failing.items room) }
    {
        let bytes = Vec::with_capacity(alloc, room as usize)?;
        Ok(MemSink {
            bytes,
            piece,
            failing,
            room,
            calls: 0,
            faults: 0,
        })
    }

    /// What was written.
    pub fn bytes(&self) -> &[u8]
        ensures { result.now ≡ self.now.written }
    {
        &self.bytes
    }
}

impl Sink for MemSink {
    ghost written = { λ s. Some s.written };

    ghost faults = { λ s. s.faults };

    fn write(&mut self, buf: &[u8]) -> Result<usize, WriteFault>
        ensures bound { WritesAtMost result buf.now }
        ensures some { IfOk result (λ n. 0 < length buf.now → 0 < n) }
        ensures ok { IfOk result (λ n. self.new ≡ after_write self.old (take n buf.now)) }
        ensures faults { CountsFault result self.old.faults self.new.faults }

        // It fails exactly at the calls of the list and where no room is left.
        ensures fails { IsErr result ↔ IsNextFault self.old }
        ensures err { OnErr result (self.new ≡ after_write_fault self.old) }

        // Else it takes as many bytes as there are, as a call may take, and as it has room for.
        ensures count { IfOk result (λ n. n ≡ write_count self.old (length buf.now)) }
    {
        self.calls = self.calls.saturating_add(1);
        let room = self.room as usize;
        if self.failing.contains(&self.calls) || room <= self.bytes.len() {
            self.faults = self.faults.saturating_add(1);
            return Err(WriteFault);
        }
        let most = self.piece as usize;
        let n = buf.len().min(most).min(room - self.bytes.len());
        self.bytes.extend_from_slice(&buf[..n]).unwrap();
        Ok(n)
    }
}
