//! Types as they are written, with the names in them.
//!
//! A type of a tree nests at most 16 levels, which bounds the recursions over types. None of them goes
//! over the members of a union: these stand in one vector, which is walked and dropped by a loop.

ghost use Rattle.std.specs.Prelude.{◌≡◌, [], ◌∷◌, ◌++◌, OnErr, OnOk};
ghost use Rattle.widl_idl.specs.Written.{members_in};

use super::{ExtendedAttributes, Name};
use crate::{IntKind, TextKind};
use std::alloc::{AllocError, Global};
use widl_text::Place;

/// A type without annotations ([Web IDL, Types](https://webidl.spec.whatwg.org/#idl-types)).
#[cycle(written)]
#[derive(Drop)]
pub struct WrittenType {
    /// Where its first token stands. Of a union it is the `(`, of a name the name.
    pub at: Place,
    /// The type without its `?`.
    pub form: TypeForm,
    /// Where its `?` stands, if it has one.
    pub question: Option<Place>,
}

/// The form of a type, without a `?`.
#[cycle(written)]
#[derive(Drop)]
pub enum TypeForm {
    /// `any`.
    Any,
    /// `undefined`.
    Undefined,
    /// `boolean`.
    Boolean,
    /// `object`.
    Object,
    /// `symbol`.
    Symbol,
    /// `bigint`.
    BigInt,
    /// An integer type.
    Integer(IntKind),
    /// A floating point type.
    Float(FloatKind),
    /// A string type.
    Text(TextKind),
    /// A buffer or a view of one.
    Buffer(BufferKind),
    /// The name of a definition.
    Named(Name),
    /// A generic type with one argument, as `sequence<T>`.
    Container(Container, Box<AnnotatedType>),
    /// `record<K, V>`.
    Record(TextKind, Box<AnnotatedType>),
    /// `Promise<T>`.
    Promise(Box<WrittenType>),
    /// A union.
    Union(UnionMembers),
}

/// A type with the extended attributes before it
/// ([Web IDL, Annotated types](https://webidl.spec.whatwg.org/#idl-annotated-types)).
#[cycle(written)]
#[derive(Drop)]
pub struct AnnotatedType {
    /// Where its first token stands: the `[` of its extended attributes where it has any.
    pub at: Place,
    /// The extended attributes.
    pub attributes: ExtendedAttributes,
    /// The type.
    pub ty: WrittenType,
}

/// The member types of a union in order.
#[cycle(written)]
#[derive(Drop)]
pub struct UnionMembers {
    items: Vec<AnnotatedType>,
}

impl UnionMembers {
    /// No member.
    pub fn new(alloc: Global) -> UnionMembers
        ensures { members_in result ≡ [] }
    {
        UnionMembers {
            items: Vec::new(alloc),
        }
    }

    /// Adds a member at the end.
    ///
    /// # Errors
    ///
    /// `AllocError` where there is no memory; the members are unchanged.
    pub fn push(&mut self, member: AnnotatedType) -> Result<(), AllocError>
        ensures ok { OnOk result (members_in self.new ≡ members_in self.old ++ member ∷ []) }
        ensures err { OnErr result (members_in self.new ≡ members_in self.old) }
    {
        self.items.push(member)?;
        Ok(())
    }

    /// The members as a slice.
    pub fn as_slice(&self) -> &[AnnotatedType]
        ensures { result.now ≡ members_in self.now }
    {
        &self.items
    }
}

/// A floating point type ([Web IDL, float](https://webidl.spec.whatwg.org/#idl-float) and the three
/// after it).
#[derive(Clone, Copy, Debug, PartialEq, Eq)]
pub enum FloatKind {
    /// `float`.
    Float,
    /// `unrestricted float`.
    UnrestrictedFloat,
    /// `double`.
    Double,
    /// `unrestricted double`.
    UnrestrictedDouble,
}

/// The word of a generic type with one argument.
#[derive(Clone, Copy, Debug, PartialEq, Eq)]
pub enum Container {
    /// `sequence`.
    Sequence,
    /// `async_sequence`.
    AsyncSequence,
    /// `FrozenArray`.
    FrozenArray,
    /// `ObservableArray`.
    ObservableArray,
}

/// A buffer type ([Web IDL, Buffer source
/// types](https://webidl.spec.whatwg.org/#idl-buffer-source-types)).
#[derive(Clone, Copy, Debug, PartialEq, Eq)]
pub enum BufferKind {
    /// `ArrayBuffer`.
    ArrayBuffer,
    /// `SharedArrayBuffer`.
    SharedArrayBuffer,
    /// `DataView`.
    DataView,
    /// `Int8Array`.
    Int8Array,
    /// `Int16Array`.
    Int16Array,
    /// `Int32Array`.
    Int32Array,
    /// `Uint8Array`.
    Uint8Array,
    /// `Uint16Array`.
    Uint16Array,
    /// `Uint32Array`.
    Uint32Array,
    /// `Uint8ClampedArray`.
    Uint8ClampedArray,
    /// `BigInt64Array`.
    BigInt64Array,
    /// `BigUint64Array`.
    BigUint64Array,
    /// `Float16Array`.
    Float16Array,
    /// `Float32Array`.
    Float32Array,
    /// `Float64Array`.
    Float64Array,
}
