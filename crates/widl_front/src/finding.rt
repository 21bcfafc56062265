//! What the first two phases find in a set of files.

use widl_text::Place;

/// A fault of a file's encoding or of its grammar.
#[derive(Clone, Copy, Debug, PartialEq, Eq)]
pub enum Finding {
    /// The bytes stop being UTF-8 here.
    Encoding(Place),
    /// The first token that no sentence of the grammar has after those before it.
    Syntax(Place),
    /// A type of level 17 begins here.
    Deep(Place),
}
