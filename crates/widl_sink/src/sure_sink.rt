//! A sink that never fails.

ghost use Rattle.std.specs.Prelude.{◌≡◌, None, length, IsOkAnd};

use crate::{Sink, WriteFailed};

/// A sink that takes each piece whole, keeps no byte and never fails. It tells no bytes.
#[derive(Drop)]
pub struct SureSink {}

impl SureSink {
    /// A sink without a fault.
    pub fn new() -> SureSink
        ensures { ⟦<SureSink as Sink>⟧.faults result ≡ 0 }
    {
        SureSink {}
    }
}

impl Sink for SureSink {
    ghost held = { λ _. None };

    ghost faults = { λ _. 0 };

    ghost Writes = { λ old piece result new. IsOkAnd result (λ count. count ≡ length piece) };

    fn write(&mut self, piece: &[u8]) -> Result<u32, WriteFailed> {
        Ok(piece.len() as u32)
    }
}
