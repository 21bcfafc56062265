//! Resolved types, which hold no names: typedefs are replaced by their types, and other names by the
//! numbers of their definitions.
//!
//! A written type nests at most 16 levels, also after its typedefs are replaced, and each type of a
//! list of definitions comes from a written one. That bounds the recursions over types here. None of
//! them goes over the members of a union: these stand in one vector, which is walked and dropped by
//! a loop.

ghost use Rattle.std.specs.Prelude.{◌≡◌, ◌<◌, [], ◌∷◌, ◌++◌, length, slice_get, slice_set, IfOk, OnErr, OnOk, Some};
ghost use Rattle.widl_idl.specs.Terms.{type_term, type_terms, types_in};

use crate::int_kind::{IntKind, Mode};
use crate::text_kind::TextKind;
use std::alloc::{AllocError, Global};
use std::mem;

/// A resolved type (Web IDL, "Types"). A number names a definition by its place in its list.
#[cycle(types)]
#[derive(Drop)]
pub enum IdlType {
    /// `any`.
    Any,
    /// `undefined`.
    Undefined,
    /// `boolean`.
    Boolean,
    /// An integer type, with the mode that its annotation asks for.
    Int(IntKind, Mode),
    /// A string type.
    Text {
        /// Which one.
        kind: TextKind,
        /// Whether it is annotated with `[LegacyNullToEmptyString]`.
        null_empty: bool,
    },
    /// An enumeration.
    Choice(u32),
    /// An interface.
    Interface(u32),
    /// A callback function.
    CallbackFn(u32),
    /// A callback interface.
    CallbackIface(u32),
    /// A dictionary.
    Dict(u32),
    /// `object`.
    Object,
    /// `sequence<T>`.
    Seq(Box<IdlType>),
    /// `record<K, V>`.
    Rec(TextKind, Box<IdlType>),
    /// `Promise<T>`.
    Promise(Box<IdlType>),
    /// `T?`.
    Nullable(Box<IdlType>),
    /// A union, with its member types in the order of the source.
    Union(IdlTypes),
}

/// Types in order.
#[cycle(types)]
#[derive(Drop)]
pub struct IdlTypes {
    items: Vec<IdlType>,
}

impl IdlType {
    /// A type with the same parts.
    ///
    /// # Errors
    ///
    /// `AllocError` where there is no memory.
    #[cycle(copy)]
    pub fn copy(&self, alloc: Global) -> Result<IdlType, AllocError>
        ensures { IfOk result (λ copy. type_term copy ≡ type_term self.now) }
    {
        match self {
            IdlType::Any => Ok(IdlType::Any),
            IdlType::Undefined => Ok(IdlType::Undefined),
            IdlType::Boolean => Ok(IdlType::Boolean),
            IdlType::Int(kind, mode) => Ok(IdlType::Int(*kind, *mode)),
            IdlType::Text { kind, null_empty } => Ok(IdlType::Text {
                kind: *kind,
                null_empty: *null_empty,
            }),
            IdlType::Choice(number) => Ok(IdlType::Choice(*number)),
            IdlType::Interface(number) => Ok(IdlType::Interface(*number)),
            IdlType::CallbackFn(number) => Ok(IdlType::CallbackFn(*number)),
            IdlType::CallbackIface(number) => Ok(IdlType::CallbackIface(*number)),
            IdlType::Dict(number) => Ok(IdlType::Dict(*number)),
            IdlType::Object => Ok(IdlType::Object),
            IdlType::Seq(element) => Ok(IdlType::Seq(boxed(alloc, element.copy(alloc)?)?)),
            IdlType::Rec(key, value) => Ok(IdlType::Rec(*key, boxed(alloc, value.copy(alloc)?)?)),
            IdlType::Promise(value) => Ok(IdlType::Promise(boxed(alloc, value.copy(alloc)?)?)),
            IdlType::Nullable(inner) => Ok(IdlType::Nullable(boxed(alloc, inner.copy(alloc)?)?)),
            IdlType::Union(members) => Ok(IdlType::Union(members.copy(alloc)?)),
        }
    }
}

fn boxed(alloc: Global, inner: IdlType) -> Result<Box<IdlType>, AllocError>
    ensures { IfOk result (λ place. type_term place.value ≡ type_term inner) }
{
    Ok(Box::new(alloc, inner)?)
}

impl IdlTypes {
    /// The empty list.
    pub fn new(alloc: Global) -> IdlTypes
        ensures { type_terms result ≡ [] }
    {
        IdlTypes {
            items: Vec::new(alloc),
        }
    }

    /// How many types there are.
    pub fn len(&self) -> usize
        ensures { result ≡ length (type_terms self.now) }
    {
        self.items.len()
    }

    /// The type at a place.
    pub fn at(&self, place: usize) -> &IdlType
        requires { place < length (type_terms self.now) }
        ensures { slice_get (type_terms self.now) place ≡ Some (type_term result.now) }
    {
        &self.items[place]
    }

    /// Puts a type at a place, and gives back the former one.
    pub fn replace(&mut self, place: usize, item: IdlType) -> IdlType
        requires { place < length (type_terms self.old) }
        ensures list { type_terms self.new ≡ slice_set (type_terms self.old) place (type_term item) }
        ensures former { slice_get (type_terms self.old) place ≡ Some (type_term result) }
    {
        mem::replace(&mut self.items[place], item)
    }

    /// Adds a type at the end.
    ///
    /// # Errors
    ///
    /// `AllocError` where there is no memory; the list is unchanged.
    pub fn push(&mut self, item: IdlType) -> Result<(), AllocError>
        ensures ok { OnOk result (type_terms self.new ≡ type_terms self.old ++ type_term item ∷ []) }
        ensures err { OnErr result (type_terms self.new ≡ type_terms self.old) }
    {
        self.items.push(item)?;
        Ok(())
    }

    /// The types as a slice.
    pub fn as_slice(&self) -> &[IdlType]
        ensures { result.now ≡ types_in self.now }
    {
        &self.items
    }

    /// A list of the same types.
    ///
    /// # Errors
    ///
    /// `AllocError` where there is no memory.
    #[cycle(copy)]
    pub fn copy(&self, alloc: Global) -> Result<IdlTypes, AllocError>
        ensures { IfOk result (λ copy. type_terms copy ≡ type_terms self.now) }
    {
        let mut copy = IdlTypes::new(alloc);
        for item in &self.items {
            let item = item.copy(alloc)?;
            copy.push(item)?;
        }
        Ok(copy)
    }
}
