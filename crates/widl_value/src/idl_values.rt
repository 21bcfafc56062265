//! Lists of IDL values.

ghost use Rattle.std.specs.Prelude.{◌≡◌, ◌<◌, [], ◌∷◌, ◌++◌, length, slice_get, slice_set, IfOk, OnErr, OnOk, Some};
ghost use Rattle.widl_value.specs.IdlTerms.{idl_term, idl_terms};

use crate::idl_value::IdlValue;
use std::alloc::{AllocError, Global};
use std::mem;

/// IDL values in order, as those of a sequence.
#[cycle(idl_values)]
#[derive(Drop)]
pub struct IdlValues {
    items: Vec<IdlValue>,
}

impl IdlValues {
    /// The empty list.
    pub fn new(alloc: Global) -> IdlValues
        ensures { idl_terms result ≡ [] }
    {
        IdlValues {
            items: Vec::new(alloc),
        }
    }

    /// How many values there are.
    pub fn len(&self) -> usize
        ensures { result ≡ length (idl_terms self.now) }
    {
        self.items.len()
    }

    /// The value at a place.
    pub fn at(&self, place: usize) -> &IdlValue
        requires { place < length (idl_terms self.now) }
        ensures { slice_get (idl_terms self.now) place ≡ Some (idl_term result.now) }
    {
        &self.items[place]
    }

    /// Puts a value at a place, and gives back the former one.
    pub fn replace(&mut self, place: usize, item: IdlValue) -> IdlValue
        requires { place < length (idl_terms self.old) }
        ensures list { idl_terms self.new ≡ slice_set (idl_terms self.old) place (idl_term item) }
        ensures former { slice_get (idl_terms self.old) place ≡ Some (idl_term result) }
    {
        mem::replace(&mut self.items[place], item)
    }

    /// Adds a value at the end.
    ///
    /// # Errors
    ///
    /// `AllocError` where there is no memory; the list is unchanged.
    pub fn push(&mut self, item: IdlValue) -> Result<(), AllocError>
        ensures ok { OnOk result (idl_terms self.new ≡ idl_terms self.old ++ idl_term item ∷ []) }
        ensures err { OnErr result (idl_terms self.new ≡ idl_terms self.old) }
    {
        self.items.push(item)?;
        Ok(())
    }

    /// The empty list, with room for as many.
    pub(crate) fn room(&self) -> Result<IdlValues, AllocError>
        ensures { IfOk result (λ list. idl_terms list ≡ []) }
    {
        Ok(IdlValues {
            items: Vec::with_capacity(*self.items.allocator(), self.items.len())?,
        })
    }

    /// Where the list has its memory from.
    pub(crate) fn allocator(&self) -> Global {
        *self.items.allocator()
    }

    /// A list of the same values.
    ///
    /// # Errors
    ///
    /// `AllocError` where there is no memory.
    pub fn copy(&self) -> Result<IdlValues, AllocError>
        ensures { IfOk result (λ copy. idl_terms copy ≡ idl_terms self.now) }
    {
        let mut copy = self.room()?;
        for item in &self.items {
            let item = item.copy()?;
            copy.push(item)?;
        }
        Ok(copy)
    }
}
