//! The trees of files.

use super::Definitions;
use widl_text::Items;

/// The tree of one file ([Web IDL, IDL fragments](https://webidl.spec.whatwg.org/#idl)).
#[derive(Drop)]
pub struct Fragment {
    /// The number of the file. All places in the tree have it.
    pub file: u16,
    /// How many tokens the file has.
    pub token_count: usize,
    /// Its definitions.
    pub definitions: Definitions,
}

/// The trees of files, in the order of the files' numbers.
pub type Fragments = Items<Fragment>;
