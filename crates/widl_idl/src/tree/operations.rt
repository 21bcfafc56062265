//! Operations.

use super::{Arguments, Name, WrittenType};
use widl_text::Place;

/// An operation ([Web IDL, Operations](https://webidl.spec.whatwg.org/#idl-operations)).
#[derive(Drop)]
pub struct Operation {
    /// Whose operation it is, or what it is called for.
    pub kind: OperationKind,
    /// Its return type.
    pub result: WrittenType,
    /// Its name, if it has one.
    pub name: Option<Name>,
    /// Where the `(` before its arguments stands.
    pub open: Place,
    /// Its arguments.
    pub arguments: Arguments,
}

/// The word before an operation.
#[derive(Clone, Copy, Debug, PartialEq, Eq)]
pub enum OperationKind {
    /// No word: an operation of each object, or of a namespace.
    Regular,
    /// `static`: an operation of the interface object.
    Static,
    /// A special operation, whose word stands at the place
    /// ([Web IDL, Special operations](https://webidl.spec.whatwg.org/#idl-special-operations)).
    Special(SpecialWord, Place),
}

/// The word of a special operation.
#[derive(Clone, Copy, Debug, PartialEq, Eq)]
pub enum SpecialWord {
    /// `getter`.
    Getter,
    /// `setter`.
    Setter,
    /// `deleter`.
    Deleter,
}
