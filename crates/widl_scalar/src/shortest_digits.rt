//! The shortest digits that name a number.

ghost use Rattle.std.specs.Prelude.{◌≡◌, ℕ, suc, ◌+◌, ◌*◌, ◌^◌, ◌<◌, ◌≤◌, true, false, Some, None};
ghost use Rattle.widl_value.specs.Near.{Near, Short};
ghost use Rattle.widl_scalar.specs.ShortestDigits.{Shortest, multiple_at, rounds_to, shortest_of};
ghost use Rattle.widl_scalar.specs.DecimalSteps.{Tens, NoneOf};

use widl_value::{near, rounds_up};

/// Of the numbers that round to x, the one with the fewest digits before its zeros; of these the
/// nearest, and on a tie the one whose last such digit is even (ECMA-262, "Number::toString").
pub(crate) fn shortest(x: u128) -> u128
    requires short { Short x }
    requires some { 0 < x }
    requires limit { x < 10 ^ 20 }
    ensures shortest { Shortest x result }
    ensures value { result ≡ shortest_of x }
{
    let mut limit = 10;
    loop {
        if let Some(w) = round_at(x, ten_step(x, limit)) {
            return w;
        }
        limit *= 10;
    }
}

/// The multiple of the step that rounds to x, if one does.
fn round_at(x: u128, step: u128) -> Option<u128>
    requires short { Short x }
    requires limit { x < 10 ^ 20 }
    requires positive { 0 < step }
    requires most { step ≤ 10 ^ 20 }
    ensures found { (w : ℕ) → result ≡ Some w → (n : ℕ) → Tens x n step → NoneOf x n → Shortest x w }
    ensures none { result ≡ None → (n : ℕ) → Tens x n step → NoneOf x (suc n) }
    ensures value { result ≡ multiple_at step x }
{
    let whole = x / step;
    let rest = x % step;
    let low = rounds_to(whole * step, x);
    let high = rounds_to(whole * step + step, x);
    if high {
        if low {
            if rounds_up(whole, rest, step) {
                Some(whole * step + step)
            } else {
                Some(whole * step)
            }
        } else {
            Some(whole * step + step)
        }
    } else if low {
        Some(whole * step)
    } else {
        None
    }
}

/// Whether x is the number of at most 53 significant bits nearest to v.
fn rounds_to(v: u128, x: u128) -> bool
    requires { v < 2 ^ 120 }
    ensures yes { result ≡ true → Near v x }
    ensures no { result ≡ false → Near v x → ⊥ }
    ensures value { result ≡ rounds_to v x }
{
    near(v) == x
}

/// The power of ten by which x is below the limit.
fn ten_step(x: u128, limit: u128) -> u128
    requires small { x < 10 ^ 20 }
    requires most { limit ≤ 10 ^ 20 }
    requires ten { 10 ≤ limit }
    ensures tens { (n : ℕ) → limit ≡ 10 ^ suc n → Tens x n result }
    ensures positive { 0 < result }
    ensures most { result ≤ 10 ^ 20 }
{
    let mut step = 1;
    while x >= limit * step {
        step *= 10;
    }
    step
}
