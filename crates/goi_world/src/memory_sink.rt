//! A sink in memory, which fails where it is told to.

ghost use Rattle.std.specs.Prelude.{◌≡◌, ◌<◌, ◌≤◌, ◌↔◌, IsTrue, length, IsErr, IfOk};
ghost use Rattle.goi_world.specs.SinkInMemory.{new_sink, write_fails, write_length, after_write};

use crate::{Failed, Sink};
use std::alloc::{AllocError, Global};
use std::marker::Model;

/// A sink that holds what was written. Each write takes at most so many bytes, and the calls of
/// some numbers fail.
///
/// A write of a piece that isn't empty fails too, where no room is left.
#[derive(Drop)]
pub struct MemorySink {
    bytes: Vec<u8>,
    room: u64,
    most: u64,
    fails: Vec<u64>,
    calls: u64,
    faults: u64,
}

impl Model for MemorySink {
    ghost use Rattle.std.specs.Prelude.{◌≤◌, vec_len, vec_capacity};
    ghost use Rattle.goi_world.specs.SinkInMemory.{SinkInMemory};

    ghost Value = { SinkInMemory };

    ghost view = { λ s. record {
      bytes = s.bytes.items;
      room = s.room;
      most = s.most;
      fails = s.fails.items;
      calls = s.calls;
      faults = s.faults;
    } };

    // The whole room is reserved from the first day on, so that no write takes memory.
    ghost invariant = { λ s. (1 ≤ s.most) × (vec_len s.bytes ≤ s.room) × (s.room ≤ vec_capacity s.bytes) };
}

impl MemorySink {
    /// An empty sink with room for `room` bytes, which it takes at once, so that no write takes
    /// memory.
    ///
    /// A write takes at most `most` bytes, of which there is to be one at least, and the calls whose
    /// numbers, from 1, stand in `fails` fail.
    ///
    /// # Errors
    ///
    /// [`AllocError`], where there is no memory for the room.
    pub fn new(
        alloc: Global,
        room: u64,
        most: u64,
        fails: Vec<u64>,
    ) -> Result<MemorySink, AllocError>
        requires { 1 ≤ most }
        ensures { IfOk result (λ sink. sink ≡ new_sink room most fails.items) }
    {
        Ok(MemorySink {
            bytes: Vec::with_capacity(alloc, room as usize)?,
            room,
            most,
            fails,
            calls: 0,
            faults: 0,
        })
    }

    /// The bytes written so far.
    pub fn written(&self) -> &[u8]
        ensures bytes { result.now ≡ self.now.bytes }
        ensures room { length result.now ≤ self.now.room }
    {
        &self.bytes
    }
}

impl Sink for MemorySink {
    ghost use Rattle.goi_world.specs.SinkInMemory.{memory_sink_seen, WroteOnce};

    ghost seen = { memory_sink_seen };

    ghost writes = { WroteOnce };

    fn write(&mut self, piece: &[u8]) -> Result<usize, Failed>
        ensures after { self.new ≡ after_write self.old piece.now }
        ensures fails { IsErr result ↔ IsTrue (write_fails self.old piece.now) }
        ensures takes { IfOk result (λ n. n ≡ write_length self.old piece.now) }
        // What any sink promises, where the clauses above don't show it by themselves.
        ensures some { IfOk result (λ n. 0 < length piece.now → 0 < n) }
        ensures later { self.old.faults ≤ self.new.faults }
    {
        self.calls = self.calls.saturating_add(1);
        let left = self.room as usize - self.bytes.len();
        if self.fails.contains(&self.calls) || (left == 0 && !piece.is_empty()) {
            self.faults = self.faults.saturating_add(1);
            return Err(Failed);
        }
        let count = piece.len().min(left).min(self.most as usize);
        self.bytes.extend_from_slice(&piece[..count]).unwrap();
        Ok(count)
    }
}
