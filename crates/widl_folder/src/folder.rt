//! What every folder promises.

use thiserror::Error;

/// What came of starting a file.
#[derive(Clone, Copy, Debug, PartialEq, Eq)]
pub enum Started {
    /// The file can be read from its first byte.
    Ready,
    /// There is no file with this name; the count of misses has risen.
    Missing,
    /// The file could not be opened; the count of faults has risen.
    Failed,
}

/// A read failed, and the folder counted a fault.
#[derive(Clone, Copy, Debug, PartialEq, Eq, Error)]
#[error("a read failed")]
pub struct ReadFailed;

/// Files by name, of which one at a time is read.
///
/// Its contracts see the files, which it may tell or not, and five numbers: how often a file was
/// missing, how often the folder has failed, how many bytes it gave since the last start, and how
/// many starts there were. A count that stands at the end of its type counts as risen in every call.
pub trait Folder {
    ghost use Rattle.std.specs.Prelude.{◌≡◌, ℕ, ◌+◌, ◌^◌, ◌<◌, ◌≤◌, ◌↔◌, Bool, true, List, length, take, IfOk, OnErr, OnOk, IsTrue};
    ghost use Rattle.std.specs.declared.option.Option.{Option};
    ghost use Rattle.std.specs.declared.result.Result.{Result};
    ghost use Rattle.widl_folder.specs.declared.folder.Started as answers;
    ghost use Rattle.std.specs.Io.KnownBytes.{prepend_known, IsAtEnd};
    ghost use Rattle.widl_sink.specs.Causes.{HasCause};
    ghost use Rattle.widl_folder.specs.Folders.{TakesUp, Counts, next_count};

    /// The files, from name to bytes, if it tells them.
    ghost files: { Self → Option (List (List ℕ × List ℕ)) };

    /// What is left of the started file, if it tells it.
    ghost left: { Self → Option (List ℕ) };

    /// Whether a file is started.
    ghost is_started: { Self → Bool };

    /// How often a file was missing.
    ghost misses: { Self → ℕ };

    /// How often the folder has failed.
    ghost faults: { Self → ℕ };

    /// How many bytes it gave since the last start.
    ghost given: { Self → ℕ };

    /// How many starts there were.
    ghost starts: { Self → ℕ };

    /// What a folder of this kind says of a start besides what each folder does: of the folder before it,
    /// the answer, and the folder after it.
    ghost Starts: { Self → answers.Started → Self → Type 0 };

    /// The same of a read into so much room.
    ghost Reads: { {E : Type 0} → Self → ℕ → Result ℕ E → Self → Type 0 };

    /// Takes up a file from its first byte. Where it isn't ready no file is started.
    fn start(&mut self, name: &str) -> Started
        ensures content { TakesUp (files self.old) name.now result (left self.new) }
        ensures started { IsTrue (is_started self.new) ↔ (result ≡ Started.Ready) }
        ensures misses { Counts (result ≡ Started.Missing) (misses self.old) (misses self.new) }
        ensures faults { Counts (result ≡ Started.Failed) (faults self.old) (faults self.new) }
        ensures given { given self.new ≡ 0 }
        ensures starts { starts self.new ≡ next_count (starts self.old) }
        ensures files { files self.new ≡ files self.old }
        ensures own { Starts self.old result self.new };

    /// Gives some more bytes of the started file, none only at its end.
    ///
    /// # Errors
    ///
    /// `ReadFailed` where the read failed; the count of faults has risen then, and no byte was given.
    fn read(&mut self, into: &mut [u8]) -> Result<u32, ReadFailed>
        requires started { IsTrue (is_started self.old) }
        requires some { 0 < length into.old }
        requires room { given self.old + length into.old < 2 ^ 32 }
        ensures most { IfOk result (λ count. count ≤ length into.new) }
        ensures content { IfOk result (λ count. left self.old ≡ prepend_known (take count into.new) (left self.new)) }
        ensures end { IfOk result (λ count. count ≡ 0 → IsAtEnd (left self.new)) }
        ensures given { IfOk result (λ count. given self.new ≡ given self.old + count) }
        ensures given_err { OnErr result (given self.new ≡ given self.old) }
        ensures cause { HasCause (faults self.old) (faults self.new) result }
        ensures started { IsTrue (is_started self.new) }
        ensures misses { misses self.new ≡ misses self.old }
        ensures starts { starts self.new ≡ starts self.old }
        ensures files { files self.new ≡ files self.old }
        ensures own { Reads self.old (length into.old) result self.new };
}
