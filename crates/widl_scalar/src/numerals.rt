//! Texts to numbers.

ghost use Rattle.std.specs.Prelude.{◌≡◌, ℕ, ◌+◌, ◌^◌, ◌<◌, ◌≤◌, length, min, IfSome, IfNone, IsOkAnd, List};
ghost use Rattle.std.specs.Option.{ForSome};
ghost use Rattle.std.specs.Str.Parse.{AllDigits, digits_value};
ghost use Rattle.widl_scalar.specs.DecimalScales.{Scales};
ghost use Rattle.widl_scalar.specs.Numerals.{Answers, IsReadNumber, Reads, base_of};
ghost use Rattle.widl_scalar.specs.NumeralWords.{read_of};
ghost use Rattle.widl_scalar.specs.WhiteSpace.{trimmed};
ghost use Rattle.widl_scalar.specs.RadixTexts.{IsPrefixCut, ReadsRadix, ReadsUnsigned};

use crate::decimal_scale::exact_value;
use crate::numeral_parts::{digit_of, exponent_of, split_digits, split_fraction, split_sign};
use crate::white_space::trimmed;
use std::alloc::{AllocError, Global};
use widl_text::Units;
use widl_value::{Number, nearest};

/// What is read of a text as a number.
#[derive(Clone, Copy, Debug, PartialEq, Eq)]
pub enum Read {
    /// A Number; NaN for a text that is no numeral.
    Number(Number),
    /// A numeral whose value isn't whole, or is of a magnitude above 2^64.
    OutOfProfile,
}

/// The Number that a text means (ECMA-262, "StringToNumber"): the one nearest to the exact value of
/// the numeral that stands there between white space, 0 for an empty text, and NaN for any other
/// text. It takes no memory.
///
/// # Errors
///
/// None comes.
pub fn number_of(alloc: Global, text: &Units) -> Result<Read, AllocError>
    ensures reads { IsOkAnd result (Reads (trimmed text.now)) }
    ensures value { result ≡ Ok (read_of (trimmed text.now)) }
    ensures number { IsOkAnd result IsReadNumber }
{
    let _ = alloc;
    Ok(read_text(text))
}

/// The same.
pub(crate) fn read_text(text: &Units) -> Read
    ensures reads { Reads (trimmed text.now) result }
    ensures value { result ≡ read_of (trimmed text.now) }
    ensures number { IsReadNumber result }
{
    read_trimmed(trimmed(text.as_slice()))
}

/// That what is computed of a text is what is read of it, and a Number: a law.
pub fn read_of_reads(text: &[u16])
    ensures reads { Reads text.now (read_of text.now) }
    ensures number { IsReadNumber (read_of text.now) }
{
    let _read = read_trimmed(text);
}

const INFINITY: [u16; 8] = [73, 110, 102, 105, 110, 105, 116, 121];

fn read_trimmed(text: &[u16]) -> Read
    ensures reads { Reads text.now result }
    ensures value { result ≡ read_of text.now }
    ensures number { IsReadNumber result }
{
    if text.is_empty() {
        return Read::Number(Number::Whole(0));
    }
    if let Some((base, digits)) = split_prefix(text) {
        return radix_number(base, digits);
    }
    let (negative, unsigned) = split_sign(text);
    if unsigned == &INFINITY[..] {
        return Read::Number(if negative {
            Number::NegInf
        } else {
            Number::PosInf
        });
    }
    decimal_number(negative, unsigned)
}

/// The base that a `0` and a letter at the front name, and what follows.
fn split_prefix(text: &[u16]) -> Option<(u16, &[u16])>
    ensures some { IfSome result (λ cut. IsPrefixCut text.now cut.0 cut.1.now) }
    ensures none { IfNone result ((base : ℕ) (rest : List ℕ) → IsPrefixCut text.now base rest → ⊥) }
{
    if text.len() < 2 || text[0] != 48 {
        return None;
    }
    match base_of(text[1]) {
        Some(base) => Some((base, &text[2..])),
        None => None,
    }
}

fn base_of(letter: u16) -> Option<u16>
    ensures value { result ≡ base_of letter }
    ensures base { IfSome result (λ base. base ≤ 16) }
{
    match letter {
        120 | 88 => Some(16),
        111 | 79 => Some(8),
        98 | 66 => Some(2),
        _ => None,
    }
}

/// The Number of these digits of a base.
fn radix_number(base: u16, digits: &[u16]) -> Read
    requires { base ≤ 16 }
    ensures reads { ReadsRadix base digits.now result }
    ensures number { IsReadNumber result }
{
    if digits.is_empty() {
        return Read::Number(Number::NaN);
    }
    match number_in(base, digits) {
        None => Read::Number(Number::NaN),
        Some(number) => finite(false, whole_value(number)),
    }
}

/// The number itself, where it is at most 2^64.
fn whole_value(number: u128) -> Option<u128>
    ensures most { IfSome result (λ v. v ≤ 2 ^ 64) }
    ensures scales { (n : ℕ) → number ≡ min n (2 ^ 64 + 1) → Scales n 0 0 result }
{
    if number > 1 << 64 { None } else { Some(number) }
}

/// The number of these digits, up to one more than 2^64, where all are digits of the base.
fn number_in(base: u16, digits: &[u16]) -> Option<u128>
    requires { base ≤ 16 }
    ensures some { IfSome result (λ number. AllDigits base digits.now × (number ≡ min (digits_value base digits.now) (2 ^ 64 + 1))) }
    ensures none { IfNone result (AllDigits base digits.now → ⊥) }
{
    let mut number: u128 = 0;
    for unit in digits {
        let digit = digit_of(*unit);
        if digit >= base {
            return None;
        }
        number = (number * u128::from(base) + u128::from(digit)).min((1 << 64) + 1);
    }
    Some(number)
}

/// The Number of a decimal numeral without a sign, with this one.
fn decimal_number(negative: bool, text: &[u16]) -> Read
    ensures reads { ReadsUnsigned negative text.now result }
    ensures number { IsReadNumber result }
{
    let (whole, rest) = split_digits(text);
    let (fraction, tail) = split_fraction(rest);
    if whole.is_empty() && fraction.is_empty() {
        return Read::Number(Number::NaN);
    }
    match exponent_of(tail) {
        None => Read::Number(Number::NaN),
        Some(exponent) => finite(negative, exact_value(whole, fraction, exponent)),
    }
}

/// The Number nearest to a whole value, where there is one.
fn finite(negative: bool, value: Option<u128>) -> Read
    requires { ForSome value (λ v. v ≤ 2 ^ 64) }
    ensures answers { (n up down : ℕ) → Scales n up down value → Answers negative n up down result }
    ensures number { IsReadNumber result }
{
    match value {
        None => Read::OutOfProfile,
        Some(v) => Read::Number(nearest(if negative { -(v as i128) } else { v as i128 })),
    }
}
