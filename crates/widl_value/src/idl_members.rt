//! Lists of the members of dictionaries.

ghost use Rattle.std.specs.Prelude.{◌≡◌, ◌<◌, [], ◌∷◌, ◌++◌, length, slice_get, slice_set, IfOk, OnErr, OnOk, Some};
ghost use Rattle.widl_value.specs.IdlTerms.{member_term, member_terms};

use crate::idl_value::IdlValue;
use std::alloc::{AllocError, Global};
use std::mem;

/// The members of a dictionary that are present, in the order of their conversion, each as the
/// dictionary that declares it, its number among that dictionary's members, and its value (Web IDL,
/// "Dictionary types").
#[cycle(idl_values)]
#[derive(Drop)]
pub struct IdlMembers {
    items: Vec<(u32, u32, IdlValue)>,
}

impl IdlMembers {
    /// The empty list.
    pub fn new(alloc: Global) -> IdlMembers
        ensures { member_terms result ≡ [] }
    {
        IdlMembers {
            items: Vec::new(alloc),
        }
    }

    /// How many members there are.
    pub fn len(&self) -> usize
        ensures { result ≡ length (member_terms self.now) }
    {
        self.items.len()
    }

    /// The member at a place.
    pub fn at(&self, place: usize) -> &(u32, u32, IdlValue)
        requires { place < length (member_terms self.now) }
        ensures { slice_get (member_terms self.now) place ≡ Some (member_term result.now) }
    {
        &self.items[place]
    }

    /// Puts a member at a place, and gives back the former one.
    pub fn replace(&mut self, place: usize, item: (u32, u32, IdlValue)) -> (u32, u32, IdlValue)
        requires { place < length (member_terms self.old) }
        ensures list { member_terms self.new ≡ slice_set (member_terms self.old) place (member_term item) }
        ensures former { slice_get (member_terms self.old) place ≡ Some (member_term result) }
    {
        mem::replace(&mut self.items[place], item)
    }

    /// Adds a member at the end.
    ///
    /// # Errors
    ///
    /// `AllocError` where there is no memory; the list is unchanged.
    pub fn push(&mut self, item: (u32, u32, IdlValue)) -> Result<(), AllocError>
        ensures ok { OnOk result (member_terms self.new ≡ member_terms self.old ++ member_term item ∷ []) }
        ensures err { OnErr result (member_terms self.new ≡ member_terms self.old) }
    {
        self.items.push(item)?;
        Ok(())
    }

    /// The empty list, with room for as many.
    pub(crate) fn room(&self) -> Result<IdlMembers, AllocError>
        ensures { IfOk result (λ list. member_terms list ≡ []) }
    {
        Ok(IdlMembers {
            items: Vec::with_capacity(*self.items.allocator(), self.items.len())?,
        })
    }

    /// Where the list has its memory from.
    pub(crate) fn allocator(&self) -> Global {
        *self.items.allocator()
    }

    /// A list of the same members.
    ///
    /// # Errors
    ///
    /// `AllocError` where there is no memory.
    pub fn copy(&self) -> Result<IdlMembers, AllocError>
        ensures { IfOk result (λ copy. member_terms copy ≡ member_terms self.now) }
    {
        let mut copy = self.room()?;
        for member in &self.items {
            let value = member.2.copy()?;
            copy.push((member.0, member.1, value))?;
        }
        Ok(copy)
    }
}
