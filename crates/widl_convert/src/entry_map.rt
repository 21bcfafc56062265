//! The entries of a record while it is made.

ghost use Rattle.std.specs.Prelude.{◌≡◌, [], IfOk, OnOk};
ghost use Rattle.widl_value.specs.IdlTerms.{entry_terms, idl_term};
ghost use Rattle.widl_steps.specs.Records.{with_entry};
ghost use Rattle.widl_convert.specs.Frames.{entries_in};

use indexmap::IndexMap;
use std::alloc::{AllocError, Global};
use std::marker::Model;
use widl_text::Units;
use widl_value::{IdlEntries, IdlValue};

/// Entries by their keys, in the order in which the keys came first.
#[derive(Drop)]
pub struct EntryMap {
    entries: IndexMap<Units, IdlValue>,
}

impl Model for EntryMap {
    ghost use Rattle.std.specs.Coded.{codes};
    ghost use Rattle.std.specs.Prelude.{List, ℕ};
    ghost use Rattle.widl_value.specs.contracts.idl_value.IdlValue as values;
    ghost use Rattle.widl_value.specs.declared.idl_value.IdlValue as TheValue;

    ghost Value = { List (List ℕ × TheValue.IdlValue) };

    ghost view = { λ m. m.entries.entries };

    ghost coded = { Prim.hlevel (codes, values.the_row.coded) };
}

impl EntryMap {
    /// No entries.
    pub(crate) fn new(alloc: Global) -> EntryMap
        ensures { entries_in result ≡ [] }
    {
        EntryMap {
            entries: IndexMap::new(alloc),
        }
    }

    /// Gives a key a value: in its place where it is there, else last.
    ///
    /// # Errors
    ///
    /// `AllocError` where there is no memory.
    pub(crate) fn set(&mut self, key: Units, value: IdlValue) -> Result<(), AllocError>
        ensures { OnOk result (entries_in self.new ≡ with_entry key (idl_term value) (entries_in self.old)) }
    {
        insert_in(&mut self.entries, key, value)
    }

    /// The entries as a list.
    ///
    /// # Errors
    ///
    /// `AllocError` where there is no memory.
    pub(crate) fn into_entries(self, alloc: Global) -> Result<IdlEntries, AllocError>
        ensures { IfOk result (λ entries. entry_terms entries ≡ entries_in self) }
    {
        let mut list = IdlEntries::new(alloc);
        for entry in self.entries {
            list.push(entry)?;
        }
        Ok(list)
    }
}

/// Gives a key a value, where the entries are.
fn insert_in(
    entries: &mut IndexMap<Units, IdlValue>,
    key: Units,
    value: IdlValue,
) -> Result<(), AllocError>
    ensures { OnOk result (entries_in entries.new.entries ≡ with_entry key (idl_term value) (entries_in entries.old.entries)) }
{
    match entries.insert(key, value) {
        Ok(_) => Ok(()),
        Err(_) => Err(AllocError),
    }
}
