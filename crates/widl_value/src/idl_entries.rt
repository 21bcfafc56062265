//! Lists of the entries of records.

ghost use Rattle.std.specs.Prelude.{◌≡◌, ◌<◌, [], ◌∷◌, ◌++◌, length, slice_get, slice_set, IfOk, OnErr, OnOk, Some};
ghost use Rattle.widl_value.specs.IdlTerms.{entry_term, entry_terms};

use crate::idl_value::IdlValue;
use std::alloc::{AllocError, Global};
use std::mem;
use widl_text::Units;

/// The entries of a record in order, each a key and a value (Web IDL, "Record types").
#[cycle(idl_values)]
#[derive(Drop)]
pub struct IdlEntries {
    items: Vec<(Units, IdlValue)>,
}

impl IdlEntries {
    /// The empty list.
    pub fn new(alloc: Global) -> IdlEntries
        ensures { entry_terms result ≡ [] }
    {
        IdlEntries {
            items: Vec::new(alloc),
        }
    }

    /// How many entries there are.
    pub fn len(&self) -> usize
        ensures { result ≡ length (entry_terms self.now) }
    {
        self.items.len()
    }

    /// The entry at a place.
    pub fn at(&self, place: usize) -> &(Units, IdlValue)
        requires { place < length (entry_terms self.now) }
        ensures { slice_get (entry_terms self.now) place ≡ Some (entry_term result.now) }
    {
        &self.items[place]
    }

    /// Puts an entry at a place, and gives back the former one.
    pub fn replace(&mut self, place: usize, item: (Units, IdlValue)) -> (Units, IdlValue)
        requires { place < length (entry_terms self.old) }
        ensures list { entry_terms self.new ≡ slice_set (entry_terms self.old) place (entry_term item) }
        ensures former { slice_get (entry_terms self.old) place ≡ Some (entry_term result) }
    {
        mem::replace(&mut self.items[place], item)
    }

    /// Adds an entry at the end.
    ///
    /// # Errors
    ///
    /// `AllocError` where there is no memory; the list is unchanged.
    pub fn push(&mut self, item: (Units, IdlValue)) -> Result<(), AllocError>
        ensures ok { OnOk result (entry_terms self.new ≡ entry_terms self.old ++ entry_term item ∷ []) }
        ensures err { OnErr result (entry_terms self.new ≡ entry_terms self.old) }
    {
        self.items.push(item)?;
        Ok(())
    }

    /// The empty list, with room for as many.
    pub(crate) fn room(&self) -> Result<IdlEntries, AllocError>
        ensures { IfOk result (λ list. entry_terms list ≡ []) }
    {
        Ok(IdlEntries {
            items: Vec::with_capacity(*self.items.allocator(), self.items.len())?,
        })
    }

    /// Where the list has its memory from.
    pub(crate) fn allocator(&self) -> Global {
        *self.items.allocator()
    }

    /// A list of the same entries.
    ///
    /// # Errors
    ///
    /// `AllocError` where there is no memory.
    pub fn copy(&self) -> Result<IdlEntries, AllocError>
        ensures { IfOk result (λ copy. entry_terms copy ≡ entry_terms self.now) }
    {
        let mut copy = self.room()?;
        for entry in &self.items {
            let key = entry.0.copy()?;
            let value = entry.1.copy()?;
            copy.push((key, value))?;
        }
        Ok(copy)
    }
}
