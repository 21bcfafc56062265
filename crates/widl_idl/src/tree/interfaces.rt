//! Interfaces, what is mixed into them, and namespaces.

use super::{Members, Name};

/// An interface ([Web IDL, Interfaces](https://webidl.spec.whatwg.org/#idl-interfaces)).
#[derive(Drop)]
pub struct Interface {
    /// Whether the word `partial` stands before it.
    pub partial: bool,
    /// Its name.
    pub name: Name,
    /// The interface that it inherits from. A partial one has none.
    pub parent: Option<Name>,
    /// Its members. A partial one has no constructor.
    pub members: Members,
}

/// An interface mixin ([Web IDL, Interface
/// mixins](https://webidl.spec.whatwg.org/#idl-interface-mixins)).
#[derive(Drop)]
pub struct Mixin {
    /// Whether the word `partial` stands before it.
    pub partial: bool,
    /// Its name.
    pub name: Name,
    /// Its constants, operations, attributes and stringifiers.
    pub members: Members,
}

/// A namespace ([Web IDL, Namespaces](https://webidl.spec.whatwg.org/#idl-namespaces)).
#[derive(Drop)]
pub struct Namespace {
    /// Whether the word `partial` stands before it.
    pub partial: bool,
    /// Its name.
    pub name: Name,
    /// Its constants, operations and read only attributes.
    pub members: Members,
}

/// An includes statement ([Web IDL, "includes
/// statement"](https://webidl.spec.whatwg.org/#includes-statement)).
#[derive(Drop)]
pub struct Includes {
    /// The interface that the members are mixed into.
    pub interface: Name,
    /// The mixin whose members they are.
    pub mixin: Name,
}
