//! Extended attributes.

use super::{Name, SourceText};
use widl_text::{Items, Place};

/// An extended attribute ([Web IDL, Extended
/// attributes](https://webidl.spec.whatwg.org/#idl-extended-attributes)).
#[derive(Drop)]
pub struct ExtendedAttribute {
    /// Its name.
    pub name: Name,
    /// The tokens after its name, as `= *` or `(long a)`; none where it has no argument. No rule reads
    /// inside them, and they nest without a bound: so they are no tree.
    pub arguments: SourceTokens,
}

/// The extended attributes between two brackets, or none where there are no brackets.
pub type ExtendedAttributes = Items<ExtendedAttribute>;

/// A token as it stands in the source.
#[derive(Drop)]
pub struct SourceToken {
    /// Where it stands.
    pub at: Place,
    /// Its text, which tells its kind.
    pub text: SourceText,
}

/// Tokens in the order of the source.
pub type SourceTokens = Items<SourceToken>;
