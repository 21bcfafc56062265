//! What is wanted of a conversion without an IDL type.

/// What a value of the script language is converted to without an IDL type.
#[derive(Clone, Copy)]
pub enum Want {
    /// A Number (ECMA-262, "ToNumber").
    Number,
    /// A String (ECMA-262, "ToString").
    Text,
    /// A length, as a Number (ECMA-262, "ToLength").
    Length,
}
