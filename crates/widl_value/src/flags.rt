//! The flags of properties.

/// The attributes of a property that are flags (ECMA-262, "Property Attributes").
#[derive(Clone, Copy, Debug, PartialEq, Eq)]
pub struct Flags {
    /// `[[Writable]]`: whether the value can be changed.
    pub writable: bool,
    /// `[[Enumerable]]`: whether the property is listed.
    pub enumerable: bool,
    /// `[[Configurable]]`: whether the property can be removed or defined anew.
    pub configurable: bool,
}
