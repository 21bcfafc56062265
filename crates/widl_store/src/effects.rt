//! What a change of a property answers.

use thiserror::Error;
use widl_value::{Flags, ObjRef, Value};

/// What a put that isn't refused did.
#[derive(Drop)]
pub enum Put {
    /// The object has the value.
    Done,
    /// Nothing: this setter is to be called with the value.
    Setter(ObjRef, Value),
}

/// Why a put did nothing.
#[derive(Clone, Copy, Debug, PartialEq, Eq, Error)]
pub enum PutFault {
    /// The property that was found isn't writable.
    #[error("the property is read only")]
    ReadOnly(Flags),
    /// The property that was found is an accessor without setter.
    #[error("the accessor has no setter")]
    NoSetter,
    /// The property is the length of an array.
    #[error("the length of an array can't be put")]
    Length,
    /// No memory for a new property.
    #[error("out of memory")]
    Memory,
}

/// Why a definition of a property did nothing.
#[derive(Clone, Copy, Debug, PartialEq, Eq, Error)]
pub enum DefineFault {
    /// The property that the object has isn't configurable.
    #[error("the property isn't configurable")]
    NotConfigurable(Flags),
    /// The property is the length of an array.
    #[error("the length of an array can't be defined")]
    Length,
    /// No memory for a new property.
    #[error("out of memory")]
    Memory,
}

/// Why a deletion did nothing: the property that the object has isn't configurable.
#[derive(Clone, Copy, Debug, PartialEq, Eq, Error)]
#[error("the property isn't configurable")]
pub struct NotConfigurable(pub Flags);
