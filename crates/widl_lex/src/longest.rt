//! The longest piece at the front of a text, by the table of states.

ghost use Rattle.std.specs.Prelude.{◌≡◌, ◌<◌, ◌≤◌, ℕ, length, slice_index, MatchOption};
ghost use Rattle.widl_lex.specs.Walk.{next_of, better_of, NoScan, IsLongestScan};

use crate::tables::{DEAD, ENDS, NEXT, STATES};
use crate::token::PieceKind;

/// The state after a byte.
fn next_state(state: usize, byte: u8) -> usize
    requires { state < STATES }
    ensures next { result ≡ next_of state byte }
    ensures small { result < STATES }
{
    NEXT[state][byte as usize] as usize
}

/// What ends in the state, at the place, or else the best so far.
fn better(
    best: Option<(usize, PieceKind)>,
    place: usize,
    end: Option<PieceKind>,
) -> Option<(usize, PieceKind)>
    ensures { result ≡ better_of best place end }
{
    match end {
        Some(kind) => Some((place, kind)),
        None => best,
    }
}

/// The end of the run of bytes, from a place on, that keep the state.
fn run_end(text: &[u8], from: usize, state: usize) -> usize
    requires small { state < STATES }
    requires from { from ≤ length text.now }
    ensures within { (from ≤ result) × (result ≤ length text.now) }
    ensures kept { (place : ℕ) → from ≤ place → place < result → next_of state (slice_index text.now place) ≡ state }
    ensures left { result < length text.now → next_of state (slice_index text.now result) ≡ state → ⊥ }
{
    for place in from..text.len() {
        if next_state(state, text[place]) != state {
            return place;
        }
    }
    text.len()
}

/// The longest front of the text that one of the table's patterns matches: how many bytes, and its kind. Most
/// bytes of white space, comments and names keep the state: a run of them ends as its last byte does.
pub fn longest(text: &[u8]) -> Option<(usize, PieceKind)>
    ensures { MatchOption result (NoScan text.now) (λ r. IsLongestScan r.1 r.0 text.now) }
{
    let mut state = 0;
    let mut best = None;
    let mut place = 0;
    while place < text.len() {
        state = next_state(state, text[place]);
        if state == DEAD {
            return best;
        }
        place = run_end(text, place + 1, state);
        best = better(best, place, ENDS[state]);
    }
    best
}
