//! Numbers of the script language.

/// A Number of ECMA-262 ("The Number Type"), restricted to whole values.
///
/// There is one zero. A `Whole` value has at most 53 significant bits and a magnitude of at most
/// two to the power of 64.
#[derive(Clone, Copy, Debug, PartialEq, Eq)]
pub enum Number {
    /// Not a number.
    NaN,
    /// Positive infinity.
    PosInf,
    /// Negative infinity.
    NegInf,
    /// A whole number.
    Whole(i128),
}
