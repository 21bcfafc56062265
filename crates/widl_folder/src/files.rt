//! Files in memory.

ghost use Rattle.std.specs.Prelude.{◌≡◌, ℕ, ◌<◌, List, [], ◌∷◌, ◌++◌, length, string_bytes, slice_get, slice_set, Some, OnOk, OnErr};

use std::alloc::{AllocError, Global};
use std::marker::Model;
use std::mem;

/// A name and the bytes of its file.
#[derive(Drop)]
pub struct NamedFile {
    name: String,
    bytes: Vec<u8>,
}

impl Model for NamedFile {
    ghost Value = { List ℕ × List ℕ };

    ghost view = { λ f. (string_bytes f.name, f.bytes.items) };
}

impl NamedFile {
    /// A file with this name and these bytes.
    pub fn new(name: String, bytes: Vec<u8>) -> NamedFile
        ensures { result ≡ (string_bytes name, bytes.items) }
    {
        NamedFile { name, bytes }
    }

    /// The name.
    pub fn name(&self) -> &str
        ensures { result.now ≡ self.now.0 }
    {
        &self.name
    }

    /// The bytes.
    pub fn bytes(&self) -> &[u8]
        ensures { result.now ≡ self.now.1 }
    {
        &self.bytes
    }
}

/// Files by name; of two with one name the first counts.
#[derive(Drop)]
pub struct Files {
    items: Vec<NamedFile>,
}

impl Model for Files {
    ghost Value = { List (List ℕ × List ℕ) };

    ghost view = { λ f. f.items.items };
}

impl Files {
    /// The empty list.
    pub fn new(alloc: Global) -> Files
        ensures { result ≡ [] }
    {
        Files {
            items: Vec::new(alloc),
        }
    }

    /// How many files the list has.
    pub fn len(&self) -> usize
        ensures { result ≡ length self.now }
    {
        self.items.len()
    }

    /// The file at a place.
    pub fn at(&self, place: usize) -> &NamedFile
        requires { place < length self.now }
        ensures { slice_get self.now place ≡ Some result.now }
    {
        &self.items[place]
    }

    /// Puts a file at a place, and gives back the former one.
    pub fn replace(&mut self, place: usize, item: NamedFile) -> NamedFile
        requires { place < length self.old }
        ensures list { self.new ≡ slice_set self.old place item }
        ensures former { slice_get self.old place ≡ Some result }
    {
        mem::replace(&mut self.items[place], item)
    }

    /// Adds a file at the end.
    ///
    /// # Errors
    ///
    /// `AllocError` where there is no memory; the list is unchanged then.
    pub fn push(&mut self, item: NamedFile) -> Result<(), AllocError>
        ensures ok { OnOk result (self.new ≡ self.old ++ item ∷ []) }
        ensures err { OnErr result (self.new ≡ self.old) }
    {
        self.items.push(item)?;
        Ok(())
    }
}
