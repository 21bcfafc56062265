//! The writer of lines.

ghost use Rattle.std.specs.Prelude.{◌≡◌, ℕ, ◌<◌, ◌≤◌, ◌⊎◌, List, [], ◌++◌, length, take, OnOk, OnErr, IfOk, vec_capacity};
ghost use Rattle.std.specs.Io.KnownBytes.{append_known};
ghost use Rattle.widl_sink.specs.Causes.{HasCause};
ghost use Rattle.widl_sink.specs.Growth.{GrewByPrefix, Sends, most_kept};
ghost use Rattle.widl_sink.specs.Lines.{ended};

use crate::{Line, Sink, WriteFailed};
use std::alloc::{AllocError, Global};
use std::marker::Model;

/// The most bytes that are handed to a sink in one piece, and that a writer keeps.
const PIECE: usize = 65_536;

/// Hands a sink some of the bytes, and says how many.
fn write_some<K: Sink>(out: &mut K, bytes: &[u8]) -> Result<usize, WriteFailed>
    requires { 0 < length bytes.now }
    ensures some { IfOk result (λ count. 0 < count) }
    ensures most { IfOk result (λ count. count ≤ length bytes.now) }
    ensures front { IfOk result (λ count. K.held out.new ≡ append_known (K.held out.old) (take count bytes.now)) }
    ensures nothing { OnErr result (K.held out.new ≡ K.held out.old) }
    ensures cause { HasCause (K.faults out.old) (K.faults out.new) result }
{
    let piece = &bytes[..bytes.len().min(PIECE)];
    let count = out.write(piece)?;
    Ok(count as usize)
}

/// Hands a sink all of the bytes, without a writer.
///
/// # Errors
///
/// `WriteFailed` where the sink failed. The bytes that it holds then grew by a prefix of these.
pub fn write_all<K: Sink>(out: &mut K, bytes: &[u8]) -> Result<(), WriteFailed>
    ensures ok { OnOk result (K.held out.new ≡ append_known (K.held out.old) bytes.now) }
    ensures err { OnErr result (GrewByPrefix (K.held out.old) (K.held out.new) bytes.now) }
    ensures cause { HasCause (K.faults out.old) (K.faults out.new) result }
{
    let mut rest = bytes;
    while !rest.is_empty() {
        let count = write_some(out, rest)?;
        rest = &rest[count..];
    }
    Ok(())
}

/// Writes lines to a sink, which its caller gives to each call. Contracts see it as the bytes that it
/// keeps and hasn't handed on yet. It has room for [`PIECE`] of them from the first on, so that no call
/// but [`Writer::new`] takes memory, and hands all of them on where these are filled.
///
/// After `WriteFailed` a writer is not used again.
#[derive(Drop)]
pub struct Writer {
    kept: Vec<u8>,
}

impl Model for Writer {
    ghost Value = { List ℕ };

    ghost view = { λ w. w.kept.items };

    ghost invariant = { λ w. (most_kept ≤ vec_capacity w.kept) × (length w.kept.items ≤ most_kept) };
}

/// Puts what fits of the bytes behind the kept ones, and gives those that don't fit.
fn keep<'b>(kept: &mut Vec<u8>, bytes: &'b [u8]) -> &'b [u8]
    requires room { most_kept ≤ vec_capacity kept.old }
    requires few { length kept.old.items ≤ most_kept }
    ensures moved { (moved : List ℕ) × (kept.new.items ≡ kept.old.items ++ moved) × (bytes.now ≡ moved ++ result.now) }
    ensures room { most_kept ≤ vec_capacity kept.new }
    ensures few { length kept.new.items ≤ most_kept }
    ensures full { (length kept.new.items ≡ most_kept) ⊎ (result.now ≡ []) }
{
    let count = bytes.len().min(PIECE - kept.len());
    match kept.extend_from_slice(&bytes[..count]) {
        Ok(()) => &bytes[count..],
        Err(_) => unreachable!(),
    }
}

/// What a writer keeps, which is lost where the program is ended from outside, has at most so many bytes.
pub fn keeps_few(writer: &Writer)
    ensures { length writer.now ≤ most_kept }
{
    let _kept = &writer.kept;
}

impl Writer {
    /// A writer that keeps nothing.
    ///
    /// # Errors
    ///
    /// `AllocError` where there is no memory. No later call takes memory.
    pub fn new(alloc: Global) -> Result<Writer, AllocError>
        ensures { IfOk result (λ writer. writer ≡ []) }
    {
        let kept = Vec::with_capacity(alloc, PIECE)?;
        Ok(Writer { kept })
    }

    /// Adds a line and its line feed to what the sink holds and the writer keeps.
    ///
    /// # Errors
    ///
    /// `WriteFailed` where the sink failed. The bytes that it holds then grew by a prefix of what the
    /// writer kept, the line and its line feed.
    pub fn emit<K: Sink>(&mut self, line: &Line, out: &mut K) -> Result<(), WriteFailed>
        ensures ok { OnOk result (Sends (K.held out.old) (K.held out.new) self.old (ended line.now) self.new) }
        ensures err { OnErr result (GrewByPrefix (K.held out.old) (K.held out.new) (self.old ++ ended line.now)) }
        ensures cause { HasCause (K.faults out.old) (K.faults out.new) result }
    {
        self.add(line.bytes(), out)?;
        self.add(b"\n", out)
    }

    /// Adds bytes to what the sink holds and the writer keeps.
    fn add<K: Sink>(&mut self, bytes: &[u8], out: &mut K) -> Result<(), WriteFailed>
        ensures ok { OnOk result (Sends (K.held out.old) (K.held out.new) self.old bytes.now self.new) }
        ensures err { OnErr result (GrewByPrefix (K.held out.old) (K.held out.new) (self.old ++ bytes.now)) }
        ensures cause { HasCause (K.faults out.old) (K.faults out.new) result }
    {
        let mut rest = bytes;
        while !rest.is_empty() {
            rest = keep(&mut self.kept, rest);
            if self.kept.len() == PIECE {
                self.flush(out)?;
            }
        }
        Ok(())
    }

    /// Moves what the writer keeps to the sink.
    ///
    /// # Errors
    ///
    /// `WriteFailed` where the sink failed. The bytes that it holds then grew by a prefix of what the
    /// writer kept.
    pub fn flush<K: Sink>(&mut self, out: &mut K) -> Result<(), WriteFailed>
        ensures ok { OnOk result (K.held out.new ≡ append_known (K.held out.old) self.old) }
        ensures empty { OnOk result (self.new ≡ []) }
        ensures err { OnErr result (GrewByPrefix (K.held out.old) (K.held out.new) self.old) }
        ensures cause { HasCause (K.faults out.old) (K.faults out.new) result }
    {
        write_all(out, &self.kept)?;
        self.kept.clear();
        Ok(())
    }
}
