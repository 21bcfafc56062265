//! Names in a tree.

use super::SourceText;
use widl_text::Place;

/// A name of the source: an identifier without the `_` that may stand before it, or a word that is
/// allowed as a name where it stands, as `required` for an attribute
/// ([Web IDL, Names](https://webidl.spec.whatwg.org/#idl-names)).
#[derive(Drop)]
pub struct Name {
    /// Where it stands.
    pub at: Place,
    /// Whether a `_` stands before it, which is no part of the name.
    pub escaped: bool,
    /// Its text, without that `_`.
    pub text: SourceText,
}
