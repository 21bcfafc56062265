//! The Number that is nearest to a whole number.

ghost use Rattle.std.specs.Prelude.{◌≡◌, ℕ, ℤ, ◌+◌, ◌*◌, ◌^◌, ◌<◌, ◌≤◌, IsTrue, false, pos, neg_ℤ, ◌≤ℤ◌};
ghost use Rattle.widl_value.specs.Near.{IsNumber, Near, NearInt, Nearest};
ghost use Rattle.widl_value.specs.Rounding.{goes_up, near_of, nearest_of};
ghost use Rattle.widl_value.specs.Steps.{Steps, IsUp, IsDown};

use crate::number::Number;

/// The Number nearest to a whole number of magnitude at most 2^64: the one of least distance, and
/// on a tie the one whose significand is even (ECMA-262, "the Number value for").
pub fn nearest(v: i128) -> Number
    requires low { neg_ℤ (pos (2 ^ 64)) ≤ℤ v }
    requires high { v ≤ℤ pos (2 ^ 64) }
    ensures nearest { Nearest v result }
    ensures number { IsNumber result }
    ensures value { result ≡ nearest_of v }
{
    let size = near(v.unsigned_abs()) as i128;
    Number::Whole(if v < 0 { -size } else { size })
}

/// That there is one such Number at most, and so exactly one: a law, which takes no step.
pub fn nearest_is_unique()
    ensures { (v a b : ℤ) → NearInt v a → NearInt v b → a ≡ b }
{}

/// That the Number that is computed is the nearest: a law, which takes no step.
pub fn nearest_of_is_nearest()
    ensures nearest { (v : ℤ) → neg_ℤ (pos (2 ^ 64)) ≤ℤ v → v ≤ℤ pos (2 ^ 64) → Nearest v (nearest_of v) }
    ensures number { (v : ℤ) → neg_ℤ (pos (2 ^ 64)) ≤ℤ v → v ≤ℤ pos (2 ^ 64) → IsNumber (nearest_of v) }
{}

/// The number of at most 53 significant bits that is nearest to v, on a tie the one with the even
/// significand. It may be greater than 2^64.
pub fn near(v: u128) -> u128
    requires { v < 2 ^ 120 }
    ensures near { Near v result }
    ensures value { result ≡ near_of v }
{
    let step = step_of(v);
    let whole = v / step;
    let rest = v % step;
    if rounds_up(whole, rest, step) {
        whole * step + step
    } else {
        whole * step
    }
}

/// The distance between the numbers of at most 53 significant bits around v: the last bit's worth.
fn step_of(v: u128) -> u128
    requires { v < 2 ^ 120 }
    ensures { Steps v result }
{
    let mut step = 1;
    while v >= (1 << 53) * step {
        step *= 2;
    }
    step
}

/// Whether of the two multiples of the step around `whole * step + rest` the one above is nearer, or
/// as near and even.
pub fn rounds_up(whole: u128, rest: u128, step: u128) -> bool
    requires { rest < 2 ^ 120 }
    ensures up { IsTrue result → IsUp whole rest step }
    ensures down { result ≡ false → IsDown whole rest step }
    ensures value { result ≡ goes_up whole rest step }
{
    2 * rest > step || (2 * rest == step && whole % 2 == 1)
}
