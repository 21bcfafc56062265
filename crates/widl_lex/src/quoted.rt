//! The quoted terminals, each found by a few of its bytes.

ghost use Rattle.std.specs.Prelude.{◌≡◌, ◌<◌, ◌↔◌, IsTrue, List, [], map, length, slice_index_or};
ghost use Rattle.widl_lex.specs.Quoted.{IsQuoted};
ghost use Rattle.widl_lex.specs.Walk.{slot_of, candidate_of};

use crate::tables::{QUOTED, QUOTED_AT};

/// The slot of the text among those of the quoted terminals, no two of which have the same.
fn slot(text: &[u8]) -> usize
    requires { 0 < length text.now }
    ensures slot { result ≡ slot_of text.now }
    ensures small { result < 512 }
{
    let first = text[0] as usize;
    let third = text[text.len() / 3] as usize;
    let middle = text[text.len() / 2] as usize;
    (first + 11 * (third + middle)) % 512
}

/// The word at a place of the list.
fn word_at(words: &[&'static [u8]], place: usize) -> &'static [u8]
    requires { place < length words.now }
    ensures { result.now ≡ slice_index_or (map (λ word. word.now) words.now) place [] }
{
    words[place]
}

/// The one quoted terminal that the text can be.
fn candidate(text: &[u8]) -> &'static [u8]
    requires { 0 < length text.now }
    ensures { result.now ≡ candidate_of text.now }
{
    word_at(&QUOTED, QUOTED_AT[slot(text)] as usize)
}

/// Whether the text is a word or a sign that the grammar writes out.
pub fn is_quoted(text: &[u8]) -> bool
    ensures { IsTrue result ↔ IsQuoted text.now }
{
    !text.is_empty() && candidate(text) == text
}
