//! Texts of a source file.

ghost use Rattle.std.specs.Prelude.{◌≡◌, ◌≤◌, IfOk, IsUtf8, length};
ghost use Rattle.widl_idl.specs.SourceTexts.{HasRoom, bytes_in};

use std::alloc::{AllocError, Global};
use std::marker::Model;

/// The most bytes that lie in the text itself: so many take no more room than a `String`.
const MOST_INLINE: usize = 22;

/// A text of a source file, which contracts see as the list of its bytes. Most are short, as names are: their
/// bytes lie in the text itself, those of longer ones on the heap.
#[derive(Drop)]
pub struct SourceText {
    storage: Storage,
}

/// Where the bytes of a text are.
#[derive(Drop)]
enum Storage {
    /// The first so many of these bytes.
    Inline(u8, [u8; MOST_INLINE]),
    /// On the heap, through a box, so that a long text takes no more room here than a short one.
    Boxed(Box<String>),
}

impl Model for SourceText {
    ghost use Rattle.std.specs.Prelude.{ℕ, List, IsUtf8};
    ghost use Rattle.widl_idl.specs.SourceTexts.{HasRoom, bytes_in};

    ghost Value = { List ℕ };

    ghost view = { λ t. bytes_in t.storage };

    ghost invariant = { λ t. HasRoom t.storage × IsUtf8 (bytes_in t.storage) };
}

impl SourceText {
    /// The text of these bytes.
    ///
    /// # Errors
    ///
    /// `AllocError` where there is no memory.
    pub fn of_utf8(alloc: Global, bytes: &[u8]) -> Result<SourceText, AllocError>
        requires { IsUtf8 bytes.now }
        ensures { IfOk result (λ text. text ≡ bytes.now) }
    {
        let storage = if bytes.len() <= MOST_INLINE {
            stored_inline(bytes)
        } else {
            stored_boxed(alloc, bytes)?
        };
        Ok(SourceText { storage })
    }

    /// The text.
    pub fn as_str(&self) -> &str
        ensures value { result.now ≡ self.now }
    {
        // The bytes need not be decoded again: the contract of `as_bytes` says that they are UTF-8.
        unsafe { std::str::from_utf8_unchecked(self.as_bytes()) }
    }

    /// The bytes of the text.
    pub fn as_bytes(&self) -> &[u8]
        ensures value { result.now ≡ self.now }
        ensures utf8 { IsUtf8 result.now }
    {
        match &self.storage {
            Storage::Inline(count, bytes) => &bytes[..usize::from(*count)],
            Storage::Boxed(text) => text.as_bytes(),
        }
    }
}

/// These bytes, of which there are few, without memory of the heap.
fn stored_inline(bytes: &[u8]) -> Storage
    requires { length bytes.now ≤ MOST_INLINE }
    ensures bytes { bytes_in result ≡ bytes.now }
    ensures room { HasRoom result }
{
    let mut inline = [0; MOST_INLINE];
    inline[..bytes.len()].copy_from_slice(bytes);
    Storage::Inline(bytes.len() as u8, inline)
}

/// These bytes on the heap.
fn stored_boxed(alloc: Global, bytes: &[u8]) -> Result<Storage, AllocError>
    requires { IsUtf8 bytes.now }
    ensures bytes { IfOk result (λ storage. bytes_in storage ≡ bytes.now) }
    ensures room { IfOk result (λ storage. HasRoom storage) }
{
    let text = String::from_str(alloc, unsafe { std::str::from_utf8_unchecked(bytes) })?;
    Ok(Storage::Boxed(Box::new(alloc, text)?))
}
