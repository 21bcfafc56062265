//! Lists of call numbers.

ghost use Rattle.std.specs.Prelude.{◌≡◌, ℕ, ◌<◌, ◌↔◌, List, [], ◌∷◌, ◌++◌, length, slice_index, slice_set, OnOk, OnErr, IsTrue, Contains};

use std::alloc::{AllocError, Global};
use std::marker::Model;
use std::mem;

/// The numbers, from 1, of the calls that are to fail.
#[derive(Drop)]
pub struct Numbers {
    items: Vec<u64>,
}

impl Model for Numbers {
    ghost Value = { List ℕ };

    ghost view = { λ n. n.items.items };
}

impl Numbers {
    /// The empty list.
    pub fn new(alloc: Global) -> Numbers
        ensures { result ≡ [] }
    {
        Numbers {
            items: Vec::new(alloc),
        }
    }

    /// How many numbers the list has.
    pub fn len(&self) -> usize
        ensures { result ≡ length self.now }
    {
        self.items.len()
    }

    /// The number at a place.
    pub fn at(&self, place: usize) -> &u64
        requires { place < length self.now }
        ensures { result.now ≡ slice_index self.now place }
    {
        &self.items[place]
    }

    /// Puts a number at a place, and gives back the former one.
    pub fn replace(&mut self, place: usize, item: u64) -> u64
        requires { place < length self.old }
        ensures list { self.new ≡ slice_set self.old place item }
        ensures former { result ≡ slice_index self.old place }
    {
        mem::replace(&mut self.items[place], item)
    }

    /// Adds a number at the end.
    ///
    /// # Errors
    ///
    /// `AllocError` where there is no memory; the list is unchanged then.
    pub fn push(&mut self, item: u64) -> Result<(), AllocError>
        ensures ok { OnOk result (self.new ≡ self.old ++ item ∷ []) }
        ensures err { OnErr result (self.new ≡ self.old) }
    {
        self.items.push(item)?;
        Ok(())
    }

    /// Whether the number is in the list.
    pub fn has(&self, number: u64) -> bool
        ensures { IsTrue result ↔ Contains self.now number }
    {
        self.items.contains(&number)
    }
}
