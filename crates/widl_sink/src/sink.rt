//! What every sink promises.

ghost use Rattle.std.specs.Prelude.{◌≡◌, ℕ, ◌^◌, ◌<◌, ◌≤◌, List, length, take, IfOk, OnErr};
ghost use Rattle.std.specs.declared.option.Option.{Option};
ghost use Rattle.std.specs.declared.result.Result.{Result};
ghost use Rattle.std.specs.Io.KnownBytes.{append_known};
ghost use Rattle.widl_sink.specs.Causes.{HasCause};

use thiserror::Error;

/// The sink took nothing of a piece, and counted a fault.
#[derive(Clone, Copy, Debug, PartialEq, Eq, Error)]
#[error("the sink took nothing")]
pub struct WriteFailed;

/// Something that takes bytes: a file, a pipe, a list in memory.
///
/// Its contracts see two things of it: the bytes that it holds, which it may tell or not, and how
/// often it has failed. A count that stands at the end of its type counts as risen in every call.
pub trait Sink {
    /// The bytes that it holds, if it tells them.
    ghost held: { Self → Option (List ℕ) };

    /// How often it has failed.
    ghost faults: { Self → ℕ };

    /// What a sink of this kind says of a call besides what each sink does: of the sink before it, the
    /// piece, the answer, and the sink after it.
    ghost Writes: { {E : Type 0} → Self → List ℕ → Result ℕ E → Self → Type 0 };

    /// Takes some bytes of the piece's front, at least one of a piece that isn't empty, and says how
    /// many.
    ///
    /// # Errors
    ///
    /// `WriteFailed` where the sink took nothing; its count of faults has risen then.
    fn write(&mut self, piece: &[u8]) -> Result<u32, WriteFailed>
        requires { length piece.now < 2 ^ 32 }
        ensures most { IfOk result (λ count. count ≤ length piece.now) }
        ensures some { IfOk result (λ count. 0 < length piece.now → 0 < count) }
        ensures front { IfOk result (λ count. held self.new ≡ append_known (held self.old) (take count piece.now)) }
        ensures nothing { OnErr result (held self.new ≡ held self.old) }
        ensures cause { HasCause (faults self.old) (faults self.new) result }
        ensures own { Writes self.old piece.now result self.new };
}
