//! The terminal that a word or sign of the grammar is.

ghost use Rattle.std.specs.Prelude.{◌≡◌, ◌<◌, ◌≤◌, Some, map, slice_index, slice_index_or, slice_range};
ghost use Rattle.std.specs.Str.{bytes_eq};
ghost use Rattle.widl_grammar.specs.declared.terminal.Terminal.TheVariants.{Identifier};
ghost use Rattle.widl_grammar.specs.declared.spelling.TheConstants.{QUOTED};
ghost use Rattle.widl_grammar.specs.Words.{quoted, quoted_among, spelling};

use crate::Terminal;
use crate::spelling::{QUOTED, QUOTED_FROM, SPELLINGS};

/// Whether the texts are the same. Most are signs of one byte; few of the words that begin with one byte have the same
/// length, so the lengths are compared first.
fn is_same_text(one: &[u8], other: &[u8]) -> bool
    ensures { result ≡ bytes_eq one.now other.now }
{
    match (one, other) {
        ([first], [second]) => first == second,
        _ => one.len() == other.len() && one == other,
    }
}

/// How each of the quoted terminals is spelled.
fn spellings() -> &'static [&'static [u8]]
    ensures { map spelling QUOTED ≡ map (λ word. Some word.now) result.now }
{
    &SPELLINGS
}

/// How the quoted terminal of that number is spelled.
fn spelling(number: usize) -> &'static [u8]
    requires { number < 86 }
    ensures { spelling (slice_index_or QUOTED number Identifier) ≡ Some result.now }
{
    spellings()[number]
}

/// The one of the quoted terminals of these numbers that is spelled so.
fn quoted_between(from: usize, to: usize, text: &[u8]) -> Option<Terminal>
    requires { to ≤ 86 }
    ensures { result ≡ quoted_among (slice_range QUOTED from to) text.now }
{
    for number in from..to {
        if is_same_text(spelling(number), text) {
            return Some(QUOTED[number]);
        }
    }
    None
}

/// How many quoted terminals are spelled with a lower first byte.
fn count_before(byte: usize) -> usize
    requires { byte < 257 }
    ensures count { result ≡ slice_index QUOTED_FROM byte }
    ensures within { result ≤ 86 }
{
    QUOTED_FROM[byte] as usize
}

/// The terminal that is spelled so, where the grammar quotes these bytes.
pub fn quoted(text: &[u8]) -> Option<Terminal>
    ensures { result ≡ quoted text.now }
{
    match text.first() {
        Some(byte) => {
            let from = count_before(*byte as usize);
            let to = count_before(*byte as usize + 1);
            quoted_between(from, to, text)
        }
        None => None,
    }
}
