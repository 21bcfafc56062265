//! The classes of values.

/// What a conversion can tell of a value without a step of the script (Web IDL, "Overload resolution
/// algorithm"): its type, and whether an object is a platform object, callable or neither.
#[derive(Clone, Copy, Debug, PartialEq, Eq)]
pub enum Class {
    /// `undefined`.
    Undefined,
    /// `null`.
    Null,
    /// A Boolean.
    Bool,
    /// A Number.
    Num,
    /// A String.
    Str,
    /// A Symbol.
    Sym,
    /// A platform object of the interface of this number.
    Platform(u32),
    /// Any other object that can be called.
    Callable,
    /// Any other object.
    Plain,
}
