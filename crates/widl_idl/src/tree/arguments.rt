//! Arguments of operations, constructors and callbacks.

use super::{AnnotatedType, ExtendedAttributes, Literal, Name};
use widl_text::{Items, Place};

/// An argument ([Web IDL, Operations](https://webidl.spec.whatwg.org/#idl-operations)).
#[derive(Drop)]
pub struct Argument {
    /// The extended attributes at its start.
    pub attributes: ExtendedAttributes,
    /// Whether a call may leave it out, or repeat it.
    pub kind: ArgumentKind,
    /// Its type. Extended attributes of its own stand only after the word `optional`.
    pub ty: AnnotatedType,
    /// Its name.
    pub name: Name,
}

/// Whether a call may leave an argument out, or repeat it.
#[derive(Drop)]
pub enum ArgumentKind {
    /// A call has it.
    Required,
    /// `optional`: a call may leave it out. It may have a default value, in a box since most have none.
    Optional(Option<Box<Literal>>),
    /// A call may have it any number of times. The place is that of its ellipsis.
    Variadic(Place),
}

/// Arguments in the order of the source.
pub type Arguments = Items<Argument>;
