//! Values to truth values, Numbers, texts and lengths, where no step of a script is needed.

ghost use Rattle.std.specs.Prelude.{◌≡◌, IfOk};
ghost use Rattle.widl_scalar.specs.Primitives.{HasNumber, IsGivenNumber, IsLength, length_of, number_in, number_truth, text_in, truth_of};

use crate::number_to_text::number_text;
use crate::numerals::{Read, read_text};
use std::alloc::{AllocError, Global};
use widl_text::Units;
use widl_value::{Number, Value};

/// The greatest length.
const GREATEST_LENGTH: u64 = (1 << 53) - 1;

/// What a value is as a Number before any step of the script.
#[derive(Clone, Copy, Debug, PartialEq, Eq)]
pub enum ValueNumber {
    /// A Number.
    Number(Number),
    /// A text with a numeral whose value isn't whole, or is of a magnitude above 2^64.
    OutOfProfile,
    /// The value is a Symbol, which has no Number.
    Symbol,
    /// The value is an Object, which has to be made a primitive value first.
    Object,
}

/// What a value is as a text before any step of the script.
#[derive(Debug, PartialEq, Eq, Drop)]
pub enum ValueText {
    /// A text.
    Text(Units),
    /// The value is a Symbol, which has no text.
    Symbol,
    /// The value is an Object, which has to be made a primitive value first.
    Object,
}

/// Whether a value is taken for true (ECMA-262, "ToBoolean").
pub fn truth(value: &Value) -> bool
    ensures { result ≡ truth_of value.now }
{
    match value {
        Value::Undefined | Value::Null => false,
        Value::Bool(b) => *b,
        Value::Num(number) => number_truth(*number),
        Value::Str(text) => text.len() > 0,
        Value::Sym(_) | Value::Obj(_) => true,
    }
}

/// Whether a Number is taken for true: each but NaN and 0.
fn number_truth(x: Number) -> bool
    ensures { result ≡ number_truth x }
{
    match x {
        Number::NaN => false,
        Number::PosInf | Number::NegInf => true,
        Number::Whole(v) => v != 0,
    }
}

/// The Number of a value that is no Object (ECMA-262, "ToNumber").
pub fn number_in_value(value: &Value) -> ValueNumber
    ensures value { result ≡ number_in value.now }
    ensures number { HasNumber value.now → IsGivenNumber result }
{
    match value {
        Value::Undefined => ValueNumber::Number(Number::NaN),
        Value::Null => ValueNumber::Number(Number::Whole(0)),
        Value::Bool(b) => ValueNumber::Number(Number::Whole(if *b { 1 } else { 0 })),
        Value::Num(number) => ValueNumber::Number(*number),
        Value::Str(text) => match read_text(text) {
            Read::Number(number) => ValueNumber::Number(number),
            Read::OutOfProfile => ValueNumber::OutOfProfile,
        },
        Value::Sym(_) => ValueNumber::Symbol,
        Value::Obj(_) => ValueNumber::Object,
    }
}

/// The text of a value that is no Object (ECMA-262, "ToString").
///
/// # Errors
///
/// `AllocError` where there is no memory.
pub fn text_in_value(alloc: Global, value: &Value) -> Result<ValueText, AllocError>
    ensures { IfOk result (λ text. text ≡ text_in value.now) }
{
    match value {
        Value::Undefined => Ok(ValueText::Text(Units::of_ascii(alloc, "undefined")?)),
        Value::Null => Ok(ValueText::Text(Units::of_ascii(alloc, "null")?)),
        Value::Bool(true) => Ok(ValueText::Text(Units::of_ascii(alloc, "true")?)),
        Value::Bool(false) => Ok(ValueText::Text(Units::of_ascii(alloc, "false")?)),
        Value::Num(number) => Ok(ValueText::Text(number_text(alloc, *number)?)),
        Value::Str(text) => Ok(ValueText::Text(text.copy()?)),
        Value::Sym(_) => Ok(ValueText::Symbol),
        Value::Obj(_) => Ok(ValueText::Object),
    }
}

/// The length that a Number means (ECMA-262, "ToLength"): 0 for NaN, and otherwise the Number
/// brought into 0 to 2^53 - 1.
#[tactic(auto, using(crate::proofs::Lengths::is_length))]
pub fn length_of_number(x: Number) -> u64
    ensures length { IsLength x result }
    ensures value { result ≡ length_of x }
{
    match x {
        Number::NaN | Number::NegInf => 0,
        Number::PosInf => GREATEST_LENGTH,
        Number::Whole(v) => {
            if v <= 0 {
                0
            } else {
                v.unsigned_abs().min(u128::from(GREATEST_LENGTH)) as u64
            }
        }
    }
}
