//! The arguments of a command line.

ghost use Rattle.std.specs.Prelude.{◌≡◌, ℕ, ◌<◌, List, [], ◌∷◌, ◌++◌, length, map, string_bytes, slice_get, slice_set, Some, OnOk, OnErr};

use std::alloc::{AllocError, Global};
use std::marker::Model;
use std::mem;

/// The arguments of a command line, without the program's own name.
#[derive(Drop)]
pub struct Words {
    items: Vec<String>,
}

impl Model for Words {
    ghost Value = { List (List ℕ) };

    ghost view = { λ w. map string_bytes w.items.items };
}

impl Words {
    /// No argument.
    pub fn new(alloc: Global) -> Words
        ensures { result ≡ [] }
    {
        Words {
            items: Vec::new(alloc),
        }
    }

    /// How many arguments there are.
    pub fn len(&self) -> usize
        ensures { result ≡ length self.now }
    {
        self.items.len()
    }

    /// The argument at a place.
    pub fn at(&self, place: usize) -> &String
        requires { place < length self.now }
        ensures { slice_get self.now place ≡ Some (string_bytes result.now) }
    {
        &self.items[place]
    }

    /// Puts an argument at a place, and gives back the former one.
    pub fn replace(&mut self, place: usize, item: String) -> String
        requires { place < length self.old }
        ensures list { self.new ≡ slice_set self.old place (string_bytes item) }
        ensures former { slice_get self.old place ≡ Some (string_bytes result) }
    {
        mem::replace(&mut self.items[place], item)
    }

    /// Adds an argument at the end.
    ///
    /// # Errors
    ///
    /// `AllocError` where there is no memory; the list is unchanged then.
    pub fn push(&mut self, item: String) -> Result<(), AllocError>
        ensures ok { OnOk result (self.new ≡ self.old ++ string_bytes item ∷ []) }
        ensures err { OnErr result (self.new ≡ self.old) }
    {
        self.items.push(item)?;
        Ok(())
    }
}
