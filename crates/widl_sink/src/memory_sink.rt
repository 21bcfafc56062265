//! A sink in memory.

ghost use Rattle.std.specs.Prelude.{◌≡◌, ℕ, ◌<◌, ◌≤◌, List, [], Some, IfOk, IsTrue, ◌↔◌, vec_capacity};
ghost use Rattle.widl_sink.specs.Memory.{FailsNext, MemoryState, MemoryWrites, fitting};

use crate::{Numbers, Sink, WriteFailed};
use std::alloc::{AllocError, Global};
use std::marker::Model;

/// A sink that keeps what it takes, up to a room that it reserved, and fails in the calls that it is
/// told to fail in.
///
/// Of each piece it takes the front that fits, at most `most` bytes. A piece that isn't empty fails in
/// a full room.
#[derive(Drop)]
pub struct MemorySink {
    bytes: Vec<u8>,
    room: u32,
    most: u32,
    fails: Numbers,
    calls: u64,
    faults: u64,
}

impl Model for MemorySink {
    ghost Value = { MemoryState };

    ghost view = { λ s. record { bytes = s.bytes.items; room = s.room; most = s.most; fails = s.fails; calls = s.calls; faults = s.faults } };

    ghost invariant = { λ s. s.room ≤ vec_capacity s.bytes };
}

impl MemorySink {
    /// A sink with a room of `room` bytes, which takes at most `most` bytes a call and fails in the
    /// calls of `write` whose numbers, from 1, are listed in `fails`.
    ///
    /// # Errors
    ///
    /// `AllocError` where there is no memory for the room. No later call takes memory.
    pub fn new(
        alloc: Global,
        room: u32,
        most: u32,
        fails: Numbers,
    ) -> Result<MemorySink, AllocError>
        requires { 0 < most }
        ensures { IfOk result (λ sink. sink ≡ record { bytes = []; room = room; most = most; fails = fails; calls = 0; faults = 0 }) }
    {
        let bytes = Vec::with_capacity(alloc, room as usize)?;
        Ok(MemorySink {
            bytes,
            room,
            most,
            fails,
            calls: 0,
            faults: 0,
        })
    }

    /// The bytes that the sink holds.
    pub fn held(&self) -> &[u8]
        ensures { result.now ≡ self.now.bytes }
    {
        &self.bytes
    }

    /// How many bytes of a piece the next call can take.
    fn fitting(&self, piece: &[u8]) -> usize
        ensures { result ≡ fitting self.now piece.now }
    {
        let left = (self.room as usize).saturating_sub(self.bytes.len());
        piece.len().min((self.most as usize).min(left))
    }

    /// Whether the next call fails, where so many bytes of the piece can be taken.
    fn fails_next(&self, piece: &[u8], count: usize) -> bool
        requires { count ≡ fitting self.now piece.now }
        ensures { IsTrue result ↔ FailsNext self.now piece.now }
    {
        self.fails.has(self.calls.saturating_add(1)) || (count == 0 && !piece.is_empty())
    }
}

impl Sink for MemorySink {
    ghost held = { λ s. Some s.bytes };

    ghost faults = { λ s. s.faults };

    ghost Writes = { MemoryWrites };

    fn write(&mut self, piece: &[u8]) -> Result<u32, WriteFailed> {
        let count = self.fitting(piece);
        let fails = self.fails_next(piece, count);
        self.calls = self.calls.saturating_add(1);
        if fails {
            self.faults = self.faults.saturating_add(1);
            return Err(WriteFailed);
        }
        match self.bytes.extend_from_slice(&piece[..count]) {
            Ok(()) => Ok(count as u32),
            Err(_) => unreachable!(),
        }
    }
}
