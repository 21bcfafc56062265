//! The bytes of several files.

ghost use Rattle.std.specs.Prelude.{◌≡◌, ℕ, ◌<◌, List, [], ◌∷◌, ◌++◌, length, map, drop, vec_items, OnOk, OnErr};
ghost use Rattle.widl_front.specs.Texts.{named};

use std::alloc::{AllocError, Global};
use std::marker::Model;

/// The bytes of several files, in the order in which they were read.
#[derive(Drop)]
pub struct Texts {
    items: Vec<Vec<u8>>,
}

impl Model for Texts {
    ghost Value = { List (List ℕ) };

    ghost view = { λ t. map vec_items t.items.items };
}

impl Texts {
    /// No file.
    pub fn new(alloc: Global) -> Texts
        ensures { result ≡ [] }
    {
        Texts {
            items: Vec::new(alloc),
        }
    }

    /// How many files there are.
    pub fn len(&self) -> usize
        ensures { result ≡ length self.now }
    {
        self.items.len()
    }

    /// The bytes of the file at a place, none past the end.
    pub fn named(&self, place: usize) -> &[u8]
        ensures { result.now ≡ named self.now place }
    {
        match self.items.get(place) {
            Some(bytes) => bytes,
            None => &[],
        }
    }

    /// Adds the bytes of a file at the end.
    ///
    /// # Errors
    ///
    /// `AllocError` where there is no memory; the list is unchanged then.
    pub fn push(&mut self, bytes: Vec<u8>) -> Result<(), AllocError>
        ensures ok { OnOk result (self.new ≡ self.old ++ bytes.items ∷ []) }
        ensures err { OnErr result (self.new ≡ self.old) }
    {
        self.items.push(bytes)?;
        Ok(())
    }

    /// Takes the first file out, and gives its bytes: the others stay, in their order.
    pub fn take_first(&mut self) -> Vec<u8>
        requires { 0 < length self.old }
        ensures first { result.items ≡ named self.old 0 }
        ensures others { self.new ≡ drop 1 self.old }
    {
        self.items.remove(0)
    }
}
