//! Reading a file in memory piece by piece.

ghost use Rattle.std.specs.Prelude.{◌≡◌, ◌<◌, min, Some, None, drop, length, MatchOption, ◌≤◌, ◌^◌, ◌++◌, [], take};
ghost use Rattle.widl_folder.specs.Files.{file_at, bytes_at};
ghost use Rattle.widl_folder.specs.Readings.{given_by, left_of};

use crate::Files;

/// A file that is being read: its place in the list, and how many of its bytes were given.
#[derive(Clone, Copy, Debug, PartialEq, Eq)]
pub struct Reading {
    pub place: usize,
    pub offset: usize,
}

/// The place of the first file with a name.
pub fn find(files: &Files, name: &str) -> Option<usize>
    ensures { MatchOption result (file_at files.now name.now ≡ None) (λ place. file_at files.now name.now ≡ Some (bytes_at files.now place)) }
{
    for place in 0..files.len() {
        if files.at(place).name() == name {
            return Some(place);
        }
    }
    None
}

/// Gives some more bytes of a file that is being read, as many as fit, and says where it stands then
/// and how many bytes that is.
pub fn give(files: &Files, reading: Reading, into: &mut [u8]) -> (Reading, u32)
    requires { length into.old < 2 ^ 32 }
    ensures count { result.1 ≡ given_by files.now (Some reading) (length into.old) }
    ensures most { result.1 ≤ length into.new }
    ensures content { left_of files.now (Some reading) ≡ take result.1 into.new ++ left_of files.now (Some result.0) }
    ensures end { result.1 ≡ 0 → 0 < length into.old → left_of files.now (Some result.0) ≡ [] }
{
    let left = left_from(file_bytes(files, reading.place), reading.offset);
    let count = copy_front(left, into);
    let next = Reading {
        place: reading.place,
        offset: reading.offset.saturating_add(count),
    };
    (next, count as u32)
}

/// The bytes after an offset, none past the end.
fn left_from(bytes: &[u8], offset: usize) -> &[u8]
    ensures { result.now ≡ drop offset bytes.now }
{
    if offset <= bytes.len() {
        &bytes[offset..]
    } else {
        &bytes[bytes.len()..]
    }
}

/// The bytes of the file at a place, none past the end of the list.
fn file_bytes(files: &Files, place: usize) -> &[u8]
    ensures { result.now ≡ bytes_at files.now place }
{
    if place < files.len() {
        files.at(place).bytes()
    } else {
        &[]
    }
}

/// Copies the front of some bytes, as much as fits, and says how many bytes that is.
fn copy_front(from: &[u8], into: &mut [u8]) -> usize
    ensures count { result ≡ min (length into.old) (length from.now) }
    ensures most { result ≤ length into.new }
    ensures some { result ≡ 0 → 0 < length into.old → from.now ≡ [] }
    ensures front { from.now ≡ take result into.new ++ drop result from.now }
{
    let count = from.len().min(into.len());
    into[..count].copy_from_slice(&from[..count]);
    count
}
