//! Tokens and their kinds.

use widl_text::Place;

/// The kind of a token (Web IDL, "IDL grammar").
#[derive(Clone, Copy, Debug, PartialEq, Eq)]
pub enum TokenKind {
    /// A word or a sign that the grammar writes out, as `interface` or `{`.
    Quoted,
    /// An integer, decimal, octal or hexadecimal, with its sign.
    Integer,
    /// A number with a fraction or an exponent.
    Decimal,
    /// A name that is no quoted terminal.
    Identifier,
    /// A text between two quotation marks, with them.
    Text,
    /// Any other single character.
    Other,
}

/// The kind of a piece of a file.
#[derive(Clone, Copy, Debug, PartialEq, Eq)]
pub enum PieceKind {
    /// A token of the kind.
    Token(TokenKind),
    /// White space or a comment.
    Gap,
}

/// A token of a file.
#[derive(Clone, Copy, Debug)]
pub struct Token<'a> {
    /// What it is.
    pub kind: TokenKind,
    /// Its first byte.
    pub at: Place,
    /// Its bytes, a slice of the file.
    pub text: &'a [u8],
}

const _: () = prove!(size_of::<Token<'static>>() <= 32);
