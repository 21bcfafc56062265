//! What a call can reach.

/// An interface or a namespace, by its number.
#[derive(Clone, Copy, Debug, PartialEq, Eq, Hash)]
pub enum Owner {
    /// An interface.
    Iface(u32),
    /// A namespace.
    Space(u32),
}

/// A part of an interface or a namespace that can be called.
#[derive(Clone, Copy, Debug, PartialEq, Eq, Hash)]
pub enum Part {
    /// The operations of a name, by its number.
    Op(u32),
    /// The constructors.
    Constructor,
    /// The getter of the attribute of this number.
    Get(u32),
    /// The setter of the attribute of this number.
    Set(u32),
    /// The stringifier.
    Text,
}

/// What a call can reach: a part of an interface or a namespace.
#[derive(Clone, Copy, Debug, PartialEq, Eq, Hash)]
pub struct Callee {
    /// The interface or the namespace.
    pub owner: Owner,
    /// The part of it.
    pub part: Part,
}
