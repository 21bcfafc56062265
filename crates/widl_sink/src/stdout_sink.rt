//! Standard output as a sink.

ghost use Rattle.std.specs.Prelude.{◌≡◌, None, ⊤};

use crate::{Sink, WriteFailed};
use std::io::Write;

/// Standard output, or any other writer: it counts each error, and tells nothing of what it holds.
///
/// What a real output does with its bytes is not a thing that a contract can say, so this adapter is
/// part of the trusted edge.
#[derive(Drop)]
pub struct StdoutSink<W: Write> {
    out: W,
    faults: u64,
}

impl<W: Write> StdoutSink<W> {
    /// A sink over the writer, without a fault so far.
    pub fn new(out: W) -> StdoutSink<W>
        ensures { ⟦<StdoutSink<W> as Sink>⟧.faults result ≡ 0 }
    {
        StdoutSink { out, faults: 0 }
    }
}

impl<W: Write> Sink for StdoutSink<W> {
    ghost held = { λ _. None };

    ghost faults = { λ s. s.faults };

    ghost Writes = { λ old piece result new. ⊤ };

    fn write(&mut self, piece: &[u8]) -> Result<u32, WriteFailed> {
        match self.out.write(piece) {
            Ok(count) if count > 0 || piece.is_empty() => Ok(count as u32),
            _ => {
                self.faults = self.faults.saturating_add(1);
                Err(WriteFailed)
            }
        }
    }
}
