//! The syntax tree of a file: its definitions as they are written, by the productions of the grammar
//! ([Web IDL, IDL grammar](https://webidl.spec.whatwg.org/#idl-grammar)).
//!
//! Names are owned, so that a tree outlives its source. Beside each name, literal and type, and beside
//! each other word that a rule of merging or validity points at, stands its [`Place`](widl_text::Place).
//! What the grammar repeats is an [`Items`](widl_text::Items).
//!
//! The only parts that hold parts of their own kind are types, and these nest at most 16 levels. That
//! bounds every recursion over a tree. The arguments of an extended attribute nest without a bound, and
//! are kept as their tokens.

mod arguments;
mod callbacks;
mod constants;
mod definitions;
mod dictionaries;
mod enumerations;
mod extended_attributes;
mod fragments;
mod interfaces;
mod iterables;
mod literals;
mod members;
mod names;
mod operations;
mod source_text;
mod typedefs;
mod types;

pub use arguments::{Argument, ArgumentKind, Arguments};
pub use callbacks::{Callback, CallbackInterface};
pub use constants::Constant;
pub use definitions::{Definition, DefinitionKind, Definitions};
pub use dictionaries::{Dictionary, DictionaryMember, DictionaryMembers};
pub use enumerations::{Enumeration, EnumerationValue, EnumerationValues};
pub use extended_attributes::{ExtendedAttribute, ExtendedAttributes, SourceToken, SourceTokens};
pub use fragments::{Fragment, Fragments};
pub use interfaces::{Includes, Interface, Mixin, Namespace};
pub use iterables::{AsyncIterable, AsyncWord, Iterable, Maplike, Setlike};
pub use literals::{Literal, LiteralValue};
pub use members::{
    Attribute, AttributeKind, Constructor, Member, MemberKind, Members, Stringifier,
};
pub use names::Name;
pub use operations::{Operation, OperationKind, SpecialWord};
pub use source_text::SourceText;
pub use typedefs::Typedef;
pub use types::{
    AnnotatedType, BufferKind, Container, FloatKind, TypeForm, UnionMembers, WrittenType,
};
