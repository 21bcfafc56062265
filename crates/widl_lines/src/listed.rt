//! The words that the language lists, each found by a few of its bytes.

ghost use Rattle.std.specs.Prelude.{◌≡◌, ◌<◌, [], length, map, get_or, slice_index};
ghost use Rattle.widl_lines.specs.declared.grammar.Terminal.TheVariants.{Unknown};
ghost use Rattle.widl_lines.specs.declared.spelling.TheConstants.{SPELLED_AT};
ghost use Rattle.widl_lines.specs.ListedWords.{listed_words};
ghost use Rattle.widl_lines.specs.Slots.{listed_at, slot_of};
ghost use Rattle.widl_lines.specs.Terminals.{listed};

use crate::Terminal;
use crate::spelling::{SPELLED, SPELLED_AT, SPELLINGS};

/// The slot of the text, where no two listed words have the same.
fn slot(text: &[u8]) -> usize
    requires { 0 < length text.now }
    ensures slot { result ≡ slot_of text.now }
    ensures small { result < 256 }
{
    let first = text[0] as usize;
    let middle = text[text.len() / 2] as usize;
    let last = text[text.len() - 1] as usize;
    (first + middle + last + 38 * (text.len() % 16)) % 256
}

/// The number of the one listed word that can have the slot.
fn number_at(slot: usize) -> usize
    requires { slot < 256 }
    ensures number { result ≡ slice_index SPELLED_AT slot }
    ensures small { result < 53 }
{
    SPELLED_AT[slot] as usize
}

/// How the listed words are spelled.
fn spellings() -> &'static [&'static [u8]]
    ensures { map (λ word. word.now) result.now ≡ map (λ word. word.0) listed_words }
{
    &SPELLINGS
}

/// How the listed word of that number is spelled.
fn spelling(number: usize) -> &'static [u8]
    requires { number < 53 }
    ensures { result.now ≡ (listed_at number).0 }
{
    spellings()[number]
}

/// The terminal of the listed word of that number.
fn spelled(number: usize) -> Terminal
    requires { number < 53 }
    ensures { result ≡ (listed_at number).1 }
{
    SPELLED[number]
}

/// The terminal of a word that the language lists.
pub fn listed(text: &[u8]) -> Option<Terminal>
    ensures { result ≡ listed text.now }
{
    if text.is_empty() {
        return None;
    }
    let number = number_at(slot(text));
    if spelling(number) == text {
        Some(spelled(number))
    } else {
        None
    }
}
