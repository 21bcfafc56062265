//! The parts of decimal numerals.

ghost use Rattle.std.specs.Prelude.{◌≡◌, ℕ, ◌+◌, ◌^◌, ◌<◌, ◌≤◌, length, take, slice_index, IfSome, IfNone};
ghost use Rattle.std.specs.Char.{digit_value};
ghost use Rattle.std.specs.Str.Parse.{AllDigits, digits_value};
ghost use Rattle.widl_scalar.specs.DecimalScales.{ExponentMeans};
ghost use Rattle.widl_scalar.specs.NumeralParts.{IsDigitCut, IsFractionCut, IsSignCut, NoDigitFirst};
ghost use Rattle.widl_scalar.specs.Numerals.{IsTail};

use crate::decimal_scale::{Exponent, capped_number};

const PLUS: u16 = 43;

const MINUS: u16 = 45;

const POINT: u16 = 46;

/// Whether a minus stands first, and the text after the sign.
pub(crate) fn split_sign(text: &[u16]) -> (bool, &[u16])
    ensures { IsSignCut text.now result.0 result.1.now }
{
    match text {
        [MINUS, rest @ ..] => (true, rest),
        [PLUS, rest @ ..] => (false, rest),
        _ => (false, text),
    }
}

/// The longest run of digits at the front, and what follows.
pub(crate) fn split_digits(text: &[u16]) -> (&[u16], &[u16])
    ensures { IsDigitCut text.now result.0.now result.1.now }
{
    text.split_at(digits_len(text))
}

/// How many digits stand at the front.
fn digits_len(text: &[u16]) -> usize
    ensures within { result ≤ length text.now }
    ensures digits { AllDigits 10 (take result text.now) }
    ensures ends { result < length text.now → 10 ≤ digit_value (slice_index text.now result) }
{
    for (place, unit) in text.iter().enumerate() {
        if digit_of(*unit) >= 10 {
            return place;
        }
    }
    text.len()
}

/// The value of a digit or letter, and 36 for any other unit.
pub(crate) fn digit_of(unit: u16) -> u16
    ensures { result ≡ digit_value unit }
{
    match unit {
        48..=57 => unit - 48,
        65..=90 => unit - 55,
        97..=122 => unit - 87,
        _ => 36,
    }
}

/// The digits after a point at the front, if one stands there, and what follows.
pub(crate) fn split_fraction(text: &[u16]) -> (&[u16], &[u16])
    requires { NoDigitFirst text.now }
    ensures { IsFractionCut text.now result.0.now result.1.now }
{
    match text {
        [POINT, after @ ..] => split_digits(after),
        _ => text.split_at(0),
    }
}

/// The exponent that the text is; an empty text is the exponent 0.
pub(crate) fn exponent_of(text: &[u16]) -> Option<Exponent>
    ensures size { IfSome result (λ e. e.size ≤ 2 ^ 100) }
    ensures means { IfSome result (λ e. (up over : ℕ) → IsTail text.now up over → ExponentMeans e up over) }
    ensures found { IfSome result (λ e. (up : ℕ) × (over : ℕ) × IsTail text.now up over) }
    ensures none { IfNone result ((up over : ℕ) → IsTail text.now up over → ⊥) }
{
    if text.is_empty() {
        return Some(Exponent {
            negative: false,
            size: 0,
        });
    }
    if text[0] != 101 && text[0] != 69 {
        return None;
    }
    let (negative, digits) = split_sign(&text[1..]);
    let (front, back) = split_digits(digits);
    if front.is_empty() || !back.is_empty() {
        return None;
    }
    Some(Exponent {
        negative,
        size: capped_number(front),
    })
}
