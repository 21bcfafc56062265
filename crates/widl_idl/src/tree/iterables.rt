//! The declarations that make an interface iterable, or like a map or a set.

use super::{AnnotatedType, Arguments};
use widl_text::Place;

/// An iterable declaration ([Web IDL, Iterable
/// declarations](https://webidl.spec.whatwg.org/#idl-iterable)).
#[derive(Drop)]
pub struct Iterable {
    /// Where the word `iterable` stands.
    pub at: Place,
    /// The type of the keys, or that of the values where there is no second type.
    pub first: AnnotatedType,
    /// The type of the values of a pair iterator.
    pub second: Option<AnnotatedType>,
}

/// An asynchronously iterable declaration ([Web IDL, Asynchronously iterable
/// declarations](https://webidl.spec.whatwg.org/#idl-async-iterable)).
#[derive(Drop)]
pub struct AsyncIterable {
    /// Where its first word stands.
    pub at: Place,
    /// How it is written.
    pub word: AsyncWord,
    /// The type of the keys, or that of the values where there is no second type.
    pub first: AnnotatedType,
    /// The type of the values of a pair iterator.
    pub second: Option<AnnotatedType>,
    /// Its arguments, where it has parentheses.
    pub arguments: Option<Arguments>,
}

/// The two spellings of an asynchronously iterable declaration.
#[derive(Clone, Copy, Debug, PartialEq, Eq)]
pub enum AsyncWord {
    /// `async iterable`.
    TwoWords,
    /// `async_iterable`.
    OneWord,
}

/// A maplike declaration ([Web IDL, Maplike
/// declarations](https://webidl.spec.whatwg.org/#idl-maplike)).
#[derive(Drop)]
pub struct Maplike {
    /// Where the word `maplike` stands.
    pub at: Place,
    /// Whether it is `readonly`.
    pub readonly: bool,
    /// The type of the keys.
    pub key: AnnotatedType,
    /// The type of the values.
    pub value: AnnotatedType,
}

/// A setlike declaration ([Web IDL, Setlike
/// declarations](https://webidl.spec.whatwg.org/#idl-setlike)).
#[derive(Drop)]
pub struct Setlike {
    /// Where the word `setlike` stands.
    pub at: Place,
    /// Whether it is `readonly`.
    pub readonly: bool,
    /// The type of the values.
    pub value: AnnotatedType,
}
