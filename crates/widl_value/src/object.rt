//! References to objects.

/// What an object is, which never changes.
#[derive(Clone, Copy, Debug, PartialEq, Eq)]
pub enum Shape {
    /// An object that is neither of the others.
    Plain,
    /// An object with `[[Call]]` (ECMA-262, "IsCallable").
    Callable,
    /// A platform object of the interface of this number (Web IDL, "platform object").
    Platform(u32),
}

/// An object, by its number, with its shape.
#[derive(Clone, Copy, Debug, PartialEq, Eq)]
pub struct ObjRef {
    /// The number of the object.
    pub id: u32,
    /// The shape of the object of that number.
    pub shape: Shape,
}
