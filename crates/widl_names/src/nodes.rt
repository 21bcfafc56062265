//! What is written in a set of files.

use widl_idl::tree::{ExtendedAttribute, Literal, MemberKind, Name, WrittenType};

/// A node that is written, which a rule reads by itself.
#[derive(Clone, Copy)]
pub enum Node<'a> {
    /// A type, also one inside another.
    Type(&'a WrittenType),
    /// An extended attribute.
    Attribute(&'a ExtendedAttribute),
    /// The value of a constant, or a default value.
    Literal(&'a Literal),
    /// The name of a definition or a member.
    Name(&'a Name),
    /// A member of an interface, a mixin or a namespace.
    Member(&'a MemberKind),
    /// A member of a callback interface.
    CallbackMember(&'a MemberKind),
}
