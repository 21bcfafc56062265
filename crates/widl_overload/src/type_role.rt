//! What a written type is the type of.

/// What a type is the type of, where it is written. The rules of validity ask for it.
#[derive(Clone, Copy, Debug, PartialEq, Eq)]
pub enum TypeRole {
    /// A whole return type.
    Returned,
    /// The whole type that a promise is of.
    Promised,
    /// The type of a constant.
    Constant,
    /// The type of an attribute.
    Attribute,
    /// The type of an argument.
    Argument,
    /// The type of a dictionary member.
    DictionaryMember,
    /// A member type of a union.
    UnionMember,
    /// Another type inside a type, the type of a typedef, or that of an iterable declaration.
    Inner,
}
