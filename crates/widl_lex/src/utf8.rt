//! Where a file stops being UTF-8.

ghost use Rattle.std.specs.Prelude.{◌≡◌, ◌<◌, IsUtf8, MatchOption};
ghost use Rattle.widl_lex.specs.Walk.{utf8_next_of};
ghost use Rattle.widl_lex.specs.Utf8.{IsUtf8Fault};

use crate::tables::{UTF8_CLASSES, UTF8_DEAD, UTF8_NEXT, UTF8_STATES};

/// The state of UTF-8 after a byte.
fn next_state(state: usize, byte: u8) -> usize
    requires { state < UTF8_STATES }
    ensures next { result ≡ utf8_next_of state byte }
    ensures small { result < UTF8_STATES }
{
    UTF8_NEXT[state][UTF8_CLASSES[byte as usize] as usize] as usize
}

/// The first byte that no UTF-8 text continues, or the length where the bytes end inside a character.
fn fault_place(bytes: &[u8]) -> usize
    requires { IsUtf8 bytes.now → ⊥ }
    ensures { IsUtf8Fault bytes.now result }
{
    let mut state = 0;
    for (place, byte) in bytes.iter().enumerate() {
        state = next_state(state, *byte);
        if state == UTF8_DEAD {
            return place;
        }
    }
    bytes.len()
}

/// Where bytes stop being UTF-8, as [`fault_place`] says; none where they are UTF-8, which std's check, many
/// bytes at a time, tells faster than the table.
pub fn utf8_fault(bytes: &[u8]) -> Option<usize>
    ensures { MatchOption result (IsUtf8 bytes.now) (IsUtf8Fault bytes.now) }
{
    match std::str::from_utf8(bytes) {
        Ok(_) => None,
        Err(_) => Some(fault_place(bytes)),
    }
}
