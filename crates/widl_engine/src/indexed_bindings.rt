//! What more names than a few are bound to, by an index of their numbers.

ghost use Rattle.std.specs.Prelude.{◌≡◌, [], nat_eq, IfOk, OnOk, option_map};
ghost use Rattle.std.specs.Option.{option_copied};
ghost use Rattle.std.specs.Map.{lookup};
ghost use Rattle.indexmap.specs.IndexMap.{insert_entry};

use indexmap::IndexMap;
use std::alloc::{AllocError, Global};
use std::marker::Model;
use widl_value::Value;

/// Numbers of names with values, in the order in which they were first bound, with an index.
#[derive(Drop)]
pub struct IndexedBindings {
    entries: IndexMap<u32, Value>,
}

impl Model for IndexedBindings {
    ghost use Rattle.std.specs.Prelude.{List, ℕ};
    ghost use Rattle.widl_value.specs.declared.value.Value as ValueType;

    ghost Value = { List (ℕ × ValueType.Value) };

    ghost view = { λ b. b.entries.entries };
}

impl IndexedBindings {
    /// Nothing is bound.
    pub(crate) fn new(alloc: Global) -> IndexedBindings
        ensures { result ≡ [] }
    {
        IndexedBindings {
            entries: IndexMap::new(alloc),
        }
    }

    /// What a name is bound to.
    pub(crate) fn get(&self, name: u32) -> Option<&Value>
        ensures { option_copied result ≡ lookup (nat_eq name) self.now }
    {
        self.entries.get(&name)
    }

    /// Binds a name: in its place where it is bound, else last.
    ///
    /// # Errors
    ///
    /// `AllocError` where there is no memory.
    pub(crate) fn set(&mut self, name: u32, value: Value) -> Result<(), AllocError>
        ensures { OnOk result (self.new ≡ insert_entry nat_eq self.old name value) }
    {
        self.entries.insert(name, value)?;
        Ok(())
    }
}
