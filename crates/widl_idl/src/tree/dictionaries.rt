//! Dictionaries.

use super::{AnnotatedType, ExtendedAttributes, Literal, Name};
use widl_text::Items;

/// A dictionary ([Web IDL, Dictionaries](https://webidl.spec.whatwg.org/#idl-dictionaries)).
#[derive(Drop)]
pub struct Dictionary {
    /// Whether the word `partial` stands before it.
    pub partial: bool,
    /// Its name.
    pub name: Name,
    /// The dictionary that it inherits from. A partial one has none.
    pub parent: Option<Name>,
    /// Its members.
    pub members: DictionaryMembers,
}

/// A member of a dictionary.
#[derive(Drop)]
pub struct DictionaryMember {
    /// The extended attributes at its start.
    pub attributes: ExtendedAttributes,
    /// Whether it is `required`.
    pub required: bool,
    /// Its type. Extended attributes of its own stand only after the word `required`.
    pub ty: AnnotatedType,
    /// Its name.
    pub name: Name,
    /// Its default value, in a box since most members have none. A required one never has.
    pub default: Option<Box<Literal>>,
}

/// Members in the order of the source.
pub type DictionaryMembers = Items<DictionaryMember>;
