//! The exact values of decimal digits with a power of ten.

ghost use Rattle.std.specs.Prelude.{◌≡◌, ℕ, ◌+◌, ◌*◌, ◌^◌, ◌<◌, ◌≤◌, ◌++◌, min, length, IfSome};
ghost use Rattle.std.specs.Str.Parse.{AllDigits, digits_value, digits_value_after};
ghost use Rattle.widl_scalar.specs.DecimalScales.{Scales, Stands, Shift, ExponentMeans};

/// The greatest magnitude of a Number.
const GREATEST: u128 = 1 << 64;
/// The number that stands for every one above `GREATEST`.
const PAST: u128 = (1 << 64) + 1;
/// The number that stands for every exponent from there on.
const FAR: u128 = 1 << 100;

/// The exponent of a numeral.
#[derive(Clone, Copy)]
pub(crate) struct Exponent {
    /// Whether it divides.
    pub negative: bool,
    /// How many tens it means, up to 2^100.
    pub size: u128,
}

/// A number as one without zeros at its end, of which what exceeds 2^64 is kept as one more than
/// that, and how many zeros follow.
#[derive(Clone, Copy)]
struct Stripped {
    kept: u128,
    zeros: u128,
}

/// The value of the digits before and after the point, times the power of ten that the exponent
/// means, where it is whole and at most 2^64.
pub(crate) fn exact_value(whole: &[u16], fraction: &[u16], exponent: Exponent) -> Option<u128>
    requires whole { AllDigits 10 whole.now }
    requires fraction { AllDigits 10 fraction.now }
    requires size { exponent.size ≤ 2 ^ 100 }
    ensures most { IfSome result (λ v. v ≤ 2 ^ 64) }
    ensures scales { (up over : ℕ) → ExponentMeans exponent up over → Scales (digits_value 10 (whole.now ++ fraction.now)) up (length fraction.now + over) result }
{
    let start = with_digits(Stripped { kept: 0, zeros: 0 }, whole);
    scaled(
        with_digits(start, fraction),
        fraction.len() as u128,
        exponent,
    )
}

/// The number with these digits after it.
fn with_digits(start: Stripped, digits: &[u16]) -> Stripped
    requires digits { AllDigits 10 digits.now }
    requires kept { start.kept ≤ 2 ^ 64 + 1 }
    requires zeros { start.zeros ≤ 2 ^ 64 }
    ensures stands { (n : ℕ) → Stands n start.kept start.zeros → Stands (digits_value_after 10 n digits.now) result.kept result.zeros }
    ensures kept { result.kept ≤ 2 ^ 64 + 1 }
    ensures zeros { result.zeros ≤ start.zeros + length digits.now }
{
    let mut number = start;
    for unit in digits {
        number = with_digit(number, u128::from(*unit - 48));
    }
    number
}

/// The number with this digit after it.
fn with_digit(number: Stripped, digit: u128) -> Stripped
    requires digit { digit < 10 }
    requires kept { number.kept ≤ 2 ^ 64 + 1 }
    requires zeros { number.zeros < 2 ^ 100 }
    ensures stands { (n : ℕ) → Stands n number.kept number.zeros → Stands (n * 10 + digit) result.kept result.zeros }
    ensures kept { result.kept ≤ 2 ^ 64 + 1 }
    ensures zeros { result.zeros ≤ number.zeros + 1 }
{
    if digit == 0 {
        Stripped {
            kept: number.kept,
            zeros: number.zeros + 1,
        }
    } else {
        Stripped {
            kept: (shifted(number.kept, number.zeros + 1) + digit).min(PAST),
            zeros: 0,
        }
    }
}

/// The number times a power of ten, up to one more than 2^64.
fn shifted(kept: u128, zeros: u128) -> u128
    requires { kept ≤ 2 ^ 64 + 1 }
    ensures { result ≡ min (kept * 10 ^ zeros) (2 ^ 64 + 1) }
{
    if kept == 0 {
        return 0;
    }
    let mut value = kept;
    let mut left = zeros;
    while left > 0 {
        value *= 10;
        if value > GREATEST {
            return PAST;
        }
        left -= 1;
    }
    value
}

/// The value of a number over so many tens, times the power of ten that the exponent means.
fn scaled(number: Stripped, tens: u128, exponent: Exponent) -> Option<u128>
    requires kept { number.kept ≤ 2 ^ 64 + 1 }
    requires zeros { number.zeros ≤ 2 ^ 66 }
    requires tens { tens < 2 ^ 64 }
    requires size { exponent.size ≤ 2 ^ 100 }
    ensures most { IfSome result (λ v. v ≤ 2 ^ 64) }
    ensures scales { (n up over : ℕ) → Stands n number.kept number.zeros → ExponentMeans exponent up over → Scales n up (tens + over) result }
{
    if number.kept == 0 {
        return Some(0);
    }
    let (rise, fall) = reach(number.zeros, tens, exponent);
    if rise < fall {
        return None;
    }
    let value = shifted(number.kept, rise - fall);
    if value > GREATEST { None } else { Some(value) }
}

/// How many tens to multiply by and to divide by.
fn reach(zeros: u128, tens: u128, exponent: Exponent) -> (u128, u128)
    requires zeros { zeros ≤ 2 ^ 66 }
    requires tens { tens < 2 ^ 64 }
    requires size { exponent.size ≤ 2 ^ 100 }
    ensures { (up over : ℕ) → ExponentMeans exponent up over → Shift (zeros + up) (tens + over) result.0 result.1 }
{
    if exponent.negative {
        (zeros, tens + exponent.size)
    } else {
        (zeros + exponent.size, tens)
    }
}

/// The number of these digits, up to 2^100.
pub(crate) fn capped_number(digits: &[u16]) -> u128
    requires { AllDigits 10 digits.now }
    ensures { result ≡ min (digits_value 10 digits.now) (2 ^ 100) }
{
    let mut number = 0;
    let mut rest = digits;
    while let [unit, after @ ..] = rest {
        number = (number * 10 + u128::from(*unit - 48)).min(FAR);
        rest = after;
    }
    number
}
