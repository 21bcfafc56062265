//! The integer types, and the modes of their conversion.

/// An integer type of Web IDL, by its width and whether it is signed
/// (Web IDL, "Integer types").
#[derive(Clone, Copy, Debug, PartialEq, Eq)]
pub enum IntKind {
    /// `byte`: 8 bits, signed.
    Byte,
    /// `octet`: 8 bits, unsigned.
    Octet,
    /// `short`: 16 bits, signed.
    Short,
    /// `unsigned short`: 16 bits, unsigned.
    UShort,
    /// `long`: 32 bits, signed.
    Long,
    /// `unsigned long`: 32 bits, unsigned.
    ULong,
    /// `long long`: 64 bits, signed.
    LongLong,
    /// `unsigned long long`: 64 bits, unsigned.
    ULongLong,
}

/// What a conversion does with a number outside the range of its integer type
/// (Web IDL, "ConvertToInt").
#[derive(Clone, Copy, Debug, PartialEq, Eq)]
pub enum Mode {
    /// The number is taken modulo two to the power of the bits.
    Wrap,
    /// The number becomes the nearest one in range, as `[Clamp]` asks.
    Clamp,
    /// The number is refused, as `[EnforceRange]` asks.
    Enforce,
}
