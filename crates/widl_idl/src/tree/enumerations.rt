//! Enumerations.

use super::{Name, SourceText};
use widl_text::{Items, Place};

/// An enumeration ([Web IDL, Enumerations](https://webidl.spec.whatwg.org/#idl-enums)).
#[derive(Drop)]
pub struct Enumeration {
    /// Its name.
    pub name: Name,
    /// Its values.
    pub values: EnumerationValues,
    /// Whether a comma stands after the last value.
    pub trailing_comma: bool,
}

/// A value of an enumeration.
#[derive(Drop)]
pub struct EnumerationValue {
    /// Where its text stands.
    pub at: Place,
    /// Its text, without the quotation marks.
    pub text: SourceText,
}

/// Values in the order of the source.
pub type EnumerationValues = Items<EnumerationValue>;
