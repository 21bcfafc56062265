//! Reading a whole file.

ghost use Rattle.std.specs.Prelude.{◌≡◌, ◌+◌, ◌<◌, ◌≤◌, ◌^◌, IfOk, IsErrOf, IsTrue, length, IfSome, IsSome, IsNone, Some};
ghost use Rattle.std.specs.Io.KnownBytes.{IsAtEnd};
ghost use Rattle.widl_text.specs.Limits.{most_file_bytes};
ghost use Rattle.widl_folder.specs.Files.{file_at};
ghost use Rattle.widl_folder.specs.Folders.{Counts, IsWhole, IsTooLong, Takes, next_count};

use crate::{Folder, Started};
use std::alloc::{AllocError, Global};
use thiserror::Error;
use widl_text::limits::MOST_FILE_BYTES;

/// The most bytes that are read in one piece.
const PIECE: usize = 4_096;

/// Why a file was not read whole.
#[derive(Debug, Drop, Error)]
pub enum FetchError {
    /// There is no memory.
    #[error("out of memory")]
    Memory(#[from(alloc)] AllocError),
    /// There is no file with this name.
    #[error("the file is missing")]
    Missing,
    /// The file could not be opened or read.
    #[error("the file could not be read")]
    Failed,
    /// The file has more than [`MOST_FILE_BYTES`] bytes.
    #[error("the file is too long")]
    TooLong,
}

/// All bytes of a file of at most [`MOST_FILE_BYTES`] bytes.
///
/// # Errors
///
/// `Missing` and `Failed` where the folder counted a miss or a fault, `TooLong` where it gave one byte
/// more than a file may have, `Memory` where there is no memory.
pub fn fetch<F: Folder>(alloc: Global, folder: &mut F, name: &str) -> Result<Vec<u8>, FetchError>
    // What is answered, where the files are told.
    ensures whole { IfOk result (λ v. IfSome (F.files folder.old) (λ told. file_at told name.now ≡ Some v.items)) }
    ensures absent { IsErrOf result FetchError.Missing → IfSome (F.files folder.old) (λ told. IsNone (file_at told name.now)) }
    ensures long { IsErrOf result FetchError.TooLong → IfSome (F.files folder.old) (λ told. IsTooLong (file_at told name.now) × IsSome (file_at told name.now)) }

    // How many bytes were given: one too many exactly where the file is too long, out of memory apart.
    ensures short { IfOk result (λ v. length v.items ≤ most_file_bytes) }
    ensures given_ok { IfOk result (λ v. F.given folder.new ≡ length v.items) }
    ensures given_long { IsErrOf result FetchError.TooLong → F.given folder.new ≡ most_file_bytes + 1 }
    ensures given_missing { IsErrOf result FetchError.Missing → F.given folder.new ≤ most_file_bytes }
    ensures given_failed { IsErrOf result FetchError.Failed → F.given folder.new ≤ most_file_bytes }

    // The counts.
    ensures missing { Counts (IsErrOf result FetchError.Missing) (F.misses folder.old) (F.misses folder.new) }
    ensures failed { Counts (IsErrOf result FetchError.Failed) (F.faults folder.old) (F.faults folder.new) }
    ensures starts { F.starts folder.new ≡ next_count (F.starts folder.old) }
    ensures files { F.files folder.new ≡ F.files folder.old }
{
    match folder.start(name) {
        Started::Ready => read_all(alloc, folder),
        Started::Missing => Err(FetchError::Missing),
        Started::Failed => Err(FetchError::Failed),
    }
}

/// All that is left of a started file.
fn read_all<F: Folder>(alloc: Global, folder: &mut F) -> Result<Vec<u8>, FetchError>
    requires started { IsTrue (F.is_started folder.old) }
    requires given { F.given folder.old ≡ 0 }
    ensures whole { IfOk result (λ v. IsWhole (F.left folder.old) v.items) }
    ensures short { IfOk result (λ v. length v.items ≤ most_file_bytes) }
    ensures present { IsErrOf result FetchError.Missing → ⊥ }
    ensures long { IsErrOf result FetchError.TooLong → IsTooLong (F.left folder.old) }
    ensures given_ok { IfOk result (λ v. F.given folder.new ≡ length v.items) }
    ensures given_long { IsErrOf result FetchError.TooLong → F.given folder.new ≡ most_file_bytes + 1 }
    ensures given_failed { IsErrOf result FetchError.Failed → F.given folder.new ≤ most_file_bytes }
    ensures failed { Counts (IsErrOf result FetchError.Failed) (F.faults folder.old) (F.faults folder.new) }
    ensures misses { F.misses folder.new ≡ F.misses folder.old }
    ensures starts { F.starts folder.new ≡ F.starts folder.old }
    ensures files { F.files folder.new ≡ F.files folder.old }
{
    let mut bytes = Vec::new(alloc);
    while bytes.len() <= MOST_FILE_BYTES {
        let room = PIECE.min(MOST_FILE_BYTES + 1 - bytes.len());
        if read_some(folder, room, &mut bytes)? == 0 {
            return Ok(bytes);
        }
    }
    Err(FetchError::TooLong)
}

/// Adds one piece of a started file, none only at its end.
fn read_some<F: Folder>(folder: &mut F, room: usize, bytes: &mut Vec<u8>) -> Result<u32, FetchError>
    requires started { IsTrue (F.is_started folder.old) }
    requires some { 0 < room }
    requires most { room ≤ 4096 }
    requires given { F.given folder.old + room < 2 ^ 32 }
    ensures takes { IfOk result (λ count. Takes (F.left folder.old) (F.left folder.new) bytes.old.items bytes.new.items count) }
    ensures most { IfOk result (λ count. count ≤ room) }
    ensures end { IfOk result (λ count. count ≡ 0 → IsAtEnd (F.left folder.new)) }
    ensures given { IfOk result (λ count. F.given folder.new ≡ F.given folder.old + count) }
    ensures given_failed { IsErrOf result FetchError.Failed → F.given folder.new ≡ F.given folder.old }
    ensures present { IsErrOf result FetchError.Missing → ⊥ }
    ensures short { IsErrOf result FetchError.TooLong → ⊥ }
    ensures failed { Counts (IsErrOf result FetchError.Failed) (F.faults folder.old) (F.faults folder.new) }
    ensures started { IfOk result (λ _. IsTrue (F.is_started folder.new)) }
    ensures misses { F.misses folder.new ≡ F.misses folder.old }
    ensures starts { F.starts folder.new ≡ F.starts folder.old }
    ensures files { F.files folder.new ≡ F.files folder.old }
{
    let mut piece = [0u8; PIECE];
    match folder.read(&mut piece[..room]) {
        Ok(count) => {
            bytes
                .extend_from_slice(&piece[..count as usize])
                .map_err(FetchError::Memory)?;
            Ok(count)
        }
        Err(_) => Err(FetchError::Failed),
    }
}
