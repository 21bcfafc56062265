//! Numbers to texts.

ghost use Rattle.std.specs.Prelude.{◌≡◌, true, false, IfOk};
ghost use Rattle.std.specs.Fmt.{signed_decimal};
ghost use Rattle.widl_value.specs.Near.{IsNumber, IsWholeNumber};
ghost use Rattle.widl_scalar.specs.NumberTexts.{IsNumberText, IsWholeText, is_whole_number, number_text_of, shortest_signed, written_of};

use crate::shortest_digits::shortest;
use itoa::Buffer;
use std::alloc::{AllocError, Global};
use widl_text::Units;
use widl_value::{Number, near};

/// The text of a Number (ECMA-262, "Number::toString"): `NaN`, `Infinity`, `-Infinity`, or the
/// shortest digits that round to the number, of these the closest, on a tie even, filled with zeros.
/// A whole number that is no Number, as 2^53 + 1, has its exact digits.
///
/// # Errors
///
/// `AllocError` where there is no memory.
pub fn number_text(alloc: Global, x: Number) -> Result<Units, AllocError>
    ensures text { IfOk result (λ text. IsNumber x → IsNumberText x text) }
    ensures value { IfOk result (λ text. text ≡ number_text_of x) }
{
    match x {
        Number::NaN => Units::of_ascii(alloc, "NaN"),
        Number::PosInf => Units::of_ascii(alloc, "Infinity"),
        Number::NegInf => Units::of_ascii(alloc, "-Infinity"),
        Number::Whole(v) => decimal_text(alloc, written(v)),
    }
}

/// That the text that is computed of a Number is its text: a law.
pub fn number_text_of_is_its_text(x: Number)
    ensures { IsNumber x → IsNumberText x (number_text_of x) }
{
    if let Number::Whole(v) = x {
        let _written = written(v);
    }
}

/// The whole number whose digits are written: the shortest of a Number, and otherwise v itself.
fn written(v: i128) -> i128
    ensures text { IsWholeNumber v → IsWholeText v (signed_decimal result) }
    ensures value { result ≡ written_of v }
{
    if is_whole_number(v) {
        shortest_signed(v)
    } else {
        v
    }
}

/// Whether v is a Number: of at most 53 significant bits and of magnitude at most 2^64.
fn is_whole_number(v: i128) -> bool
    ensures yes { result ≡ true → IsWholeNumber v }
    ensures no { result ≡ false → IsWholeNumber v → ⊥ }
    ensures value { result ≡ is_whole_number v }
{
    let size = v.unsigned_abs();
    size <= 1 << 64 && near(size) == size
}

/// The number that the text of the Number v names.
fn shortest_signed(v: i128) -> i128
    requires { IsWholeNumber v }
    ensures text { IsWholeText v (signed_decimal result) }
    ensures value { result ≡ shortest_signed v }
{
    if v == 0 {
        return 0;
    }
    let digits = shortest(v.unsigned_abs()) as i128;
    if v < 0 { -digits } else { digits }
}

/// The digits of v, after a minus sign where it is below 0.
fn decimal_text(alloc: Global, v: i128) -> Result<Units, AllocError>
    ensures { IfOk result (λ text. text ≡ signed_decimal v) }
{
    let mut buffer = Buffer::new();
    let text = Units::of_ascii(alloc, buffer.format(v))?;
    Ok(text)
}
