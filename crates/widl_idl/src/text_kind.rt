//! The string types.

/// A string type of Web IDL (Web IDL, "String types").
#[derive(Clone, Copy, Debug, PartialEq, Eq)]
pub enum TextKind {
    /// `DOMString`: any 16-bit units.
    Dom,
    /// `USVString`: units without a lone surrogate.
    Usv,
    /// `ByteString`: units of at most 255.
    Byte,
}
