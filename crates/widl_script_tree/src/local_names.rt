//! The names that are local in a function.

ghost use Rattle.std.specs.Prelude.{◌≡◌, [], nat_eq, OnErr, OnOk};
ghost use Rattle.std.specs.List.{list_any};
ghost use Rattle.indexmap.specs.IndexSet.{insert_key};

use indexmap::IndexSet;
use std::alloc::{AllocError, Global};
use std::marker::Model;

/// Numbers of names, each once, which contracts see as a list.
#[derive(Drop)]
pub struct LocalNames {
    numbers: IndexSet<u32>,
}

impl Model for LocalNames {
    ghost use Rattle.std.specs.Prelude.{List, ℕ};

    ghost Value = { List ℕ };

    ghost view = { λ all. all.numbers.keys };
}

impl LocalNames {
    /// No names.
    pub fn new(alloc: Global) -> LocalNames
        ensures { result ≡ [] }
    {
        LocalNames {
            numbers: IndexSet::new(alloc),
        }
    }

    /// Adds the number of a name, unless it is there.
    ///
    /// # Errors
    ///
    /// `AllocError` where there is no memory; the names are unchanged.
    pub fn put(&mut self, name: u32) -> Result<(), AllocError>
        ensures ok { OnOk result (self.new ≡ insert_key nat_eq self.old name) }
        ensures err { OnErr result (self.new ≡ self.old) }
    {
        self.numbers.insert(name)?;
        Ok(())
    }

    /// Whether the number is there.
    pub fn has(&self, name: u32) -> bool
        ensures { result ≡ list_any (nat_eq name) self.now }
    {
        self.numbers.contains(&name)
    }
}
