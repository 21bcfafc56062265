//! Values that are written in IDL: defaults and constants.

use widl_text::Units;

/// A value as it is written in IDL (Web IDL, "Constants" and "Default values").
#[derive(Drop)]
pub enum Literal {
    /// `null`.
    Null,
    /// `undefined`.
    Undefined,
    /// `true` or `false`.
    Bool(bool),
    /// An integer.
    Int(i128),
    /// A text between quotes.
    Text(Units),
    /// `[]`.
    EmptyList,
    /// `{}`.
    EmptyDict,
}
