//! Members of interfaces, mixins, namespaces and callback interfaces.

use super::{
    AnnotatedType, Arguments, AsyncIterable, Constant, ExtendedAttributes, Iterable, Maplike, Name,
    Operation, Setlike,
};
use widl_text::{Items, Place};

/// A member with the extended attributes before it
/// ([Web IDL, Members](https://webidl.spec.whatwg.org/#idl-members)).
#[derive(Drop)]
pub struct Member {
    /// The extended attributes.
    pub attributes: ExtendedAttributes,
    /// What the member is.
    pub kind: MemberKind,
}

/// What a member is. Rare kinds stand in boxes, so that the others take less room.
#[derive(Drop)]
pub enum MemberKind {
    /// A constant.
    Constant(Box<Constant>),
    /// An attribute, also one that is a stringifier.
    Attribute(Attribute),
    /// An operation.
    Operation(Operation),
    /// A constructor.
    Constructor(Constructor),
    /// A stringifier without an attribute.
    Stringifier(Stringifier),
    /// An iterable declaration.
    Iterable(Box<Iterable>),
    /// An asynchronously iterable declaration.
    AsyncIterable(Box<AsyncIterable>),
    /// A maplike declaration.
    Maplike(Box<Maplike>),
    /// A setlike declaration.
    Setlike(Box<Setlike>),
}

/// Members in the order of the source.
pub type Members = Items<Member>;

/// An attribute ([Web IDL, Attributes](https://webidl.spec.whatwg.org/#idl-attributes)).
#[derive(Drop)]
pub struct Attribute {
    /// Whose attribute it is.
    pub kind: AttributeKind,
    /// Whether it is `readonly`.
    pub readonly: bool,
    /// Its type, with the extended attributes between the word `attribute` and the type.
    pub ty: AnnotatedType,
    /// Its name.
    pub name: Name,
}

/// The word before an attribute that says whose it is.
#[derive(Clone, Copy, Debug, PartialEq, Eq)]
pub enum AttributeKind {
    /// No word: an attribute of each object, or of a namespace.
    Regular,
    /// `static`: an attribute of the interface object.
    Static,
    /// `inherit`, which stands at the place: its getter is inherited.
    Inherited(Place),
    /// `stringifier`, which stands at the place: it is also what the object is as a text.
    Stringifier(Place),
}

/// A constructor ([Web IDL, Constructor
/// operations](https://webidl.spec.whatwg.org/#idl-constructors)).
#[derive(Drop)]
pub struct Constructor {
    /// Where the word `constructor` stands.
    pub at: Place,
    /// Its arguments.
    pub arguments: Arguments,
}

/// A stringifier without an attribute
/// ([Web IDL, Stringifiers](https://webidl.spec.whatwg.org/#idl-stringifiers)).
#[derive(Clone, Copy, Debug, PartialEq, Eq)]
pub struct Stringifier {
    /// Where the word `stringifier` stands.
    pub at: Place,
}
