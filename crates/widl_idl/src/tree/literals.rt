//! The values of constants, and default values.

use super::SourceText;
use widl_text::Place;

/// A value that the source writes ([Web IDL, Constants](https://webidl.spec.whatwg.org/#idl-constants),
/// and "default value" of arguments and dictionary members).
#[derive(Drop)]
pub struct Literal {
    /// Where its first token stands.
    pub at: Place,
    /// What is written.
    pub value: LiteralValue,
}

/// What a literal says.
#[derive(Drop)]
pub enum LiteralValue {
    /// `null`.
    Null,
    /// `undefined`.
    Undefined,
    /// `true` or `false`.
    Boolean(bool),
    /// An integer, by its token: decimal, octal or hexadecimal, with its sign.
    Integer(SourceText),
    /// A number with a fraction or an exponent, by its token.
    Decimal(SourceText),
    /// `Infinity`.
    Infinity,
    /// `-Infinity`.
    MinusInfinity,
    /// `NaN`.
    NotANumber,
    /// A text, without its quotation marks.
    Text(SourceText),
    /// `[]`.
    EmptySequence,
    /// `{}`.
    EmptyDictionary,
}
