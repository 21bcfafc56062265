//! IDL values.

ghost use Rattle.std.specs.Prelude.{◌≡◌, IfOk};
ghost use Rattle.widl_value.specs.IdlTerms.{idl_term};

use crate::copying::copy_of;
use crate::idl_entries::IdlEntries;
use crate::idl_members::IdlMembers;
use crate::idl_values::IdlValues;
use crate::object::ObjRef;
use crate::value::Value;
use std::alloc::AllocError;
use widl_text::Units;

/// A value of an IDL type (Web IDL, "Types"). A number names a definition by its place in its list.
///
/// A type nests at most 16 levels and a chain of dictionaries has at most 256, so a value that a
/// conversion makes nests at most 4,096 levels. That bounds the recursion with which a value is
/// dropped; the items of a list stand in one vector, which is dropped by a loop.
#[cycle(idl_values)]
#[derive(Drop)]
pub enum IdlValue {
    /// `undefined`.
    Undefined,
    /// `null`.
    Null,
    /// The special value "missing" of an optional argument that was not passed (Web IDL, "Overload
    /// resolution algorithm").
    Missing,
    /// A value of `boolean`.
    Bool(bool),
    /// A value of an integer type.
    Int(i128),
    /// A value of a string type.
    Text(Units),
    /// A value of an enumeration.
    Choice {
        /// The enumeration.
        of: u32,
        /// The place of the value among its values.
        index: u32,
    },
    /// A reference to an object: of an interface, a callback or `object`.
    Object(ObjRef),
    /// A value of `any`.
    Any(Value),
    /// A value of a sequence.
    List(IdlValues),
    /// A value of a record.
    Entries(IdlEntries),
    /// A value of a dictionary.
    Dict {
        /// The dictionary.
        of: u32,
        /// Its members that are present.
        members: IdlMembers,
    },
    /// A reference to a promise.
    Promise(ObjRef),
}

impl IdlValue {
    /// A value with the same parts.
    ///
    /// # Errors
    ///
    /// `AllocError` where there is no memory.
    pub fn copy(&self) -> Result<IdlValue, AllocError>
        ensures { IfOk result (λ copy. idl_term copy ≡ idl_term self.now) }
    {
        copy_of(self)
    }
}
