//! The kinds of definitions.

/// What a definition declares (Web IDL, "Definition").
#[derive(Clone, Copy, Debug, PartialEq, Eq)]
pub enum Kind {
    /// A callback function.
    CallbackFunction,
    /// A callback interface.
    CallbackInterface,
    /// An interface.
    Interface,
    /// An interface mixin.
    Mixin,
    /// A namespace.
    Namespace,
    /// A dictionary.
    Dictionary,
    /// An enumeration.
    Enumeration,
    /// A typedef.
    Typedef,
    /// An includes statement, which declares nothing of its own.
    Includes,
}
