//! Values to Numbers, Strings and lengths.

ghost use Rattle.std.specs.Prelude.{◌≡◌, ◌≤◌, ◌+◌, IfOk};
ghost use Rattle.widl_dialog.specs.Dialog.{End, Steps};
ghost use Rattle.widl_idl.specs.DefinitionTerms.{DefsTerm};
ghost use Rattle.widl_scalar.specs.Primitives.{number_in, text_in};
ghost use Rattle.widl_steps.specs.Scalars.{length_value, to_number, to_scalar, to_text};
ghost use Rattle.widl_steps.specs.Tasks.{Primitive, Scalar};
ghost use Rattle.widl_steps.specs.Words.{returned, returns};
ghost use Rattle.widl_convert.specs.Frames.{move_dialog, plain_to};
ghost use Rattle.widl_convert.specs.Loads.{load, object_load, weight};

use crate::frames::{Frame, NumberFrame, ValueFrame};
use crate::jobs::Job;
use crate::moves::{Ending, Move};
use crate::outcome::Outcome;
use std::alloc::{AllocError, Global};
use widl_scalar::{ValueNumber, ValueText, length_of_number, number_in_value, text_in_value};
use widl_steps::{Hint, Want};
use widl_text::Units;
use widl_trace::Code;
use widl_value::{Number, Value};

/// The end of the profile for a numeral that isn't whole or is too large.
pub(crate) const NO_WHOLE_NUMBER: u8 = 1;

/// The first move of a value's conversion to a Number, a String or a length.
///
/// # Errors
///
/// `AllocError` where there is no memory.
pub(crate) fn to_scalar(alloc: Global, want: Want, value: Value) -> Result<Move, AllocError>
    ensures dialog { IfOk result (λ m. (list : DefsTerm) → move_dialog list m ≡ to_scalar want value) }
    ensures weight { IfOk result (λ m. (list : DefsTerm) → weight list m ≤ load list (Scalar want value)) }
{
    match want {
        Want::Number => Ok(to_number(value)),
        Want::Text => to_text(alloc, value),
        Want::Length => Ok(Move::Steps(
            Frame::Number(NumberFrame::Length),
            Job::Scalar {
                want: Want::Number,
                value,
            },
        )),
    }
}

/// The first move of a value's conversion to a Number.
fn to_number(value: Value) -> Move
    ensures dialog { (list : DefsTerm) → move_dialog list result ≡ to_number value (number_in value) }
    ensures weight { (list : DefsTerm) → weight list result ≤ load list (Scalar Want.Number value) }
{
    match number_in_value(&value) {
        ValueNumber::Number(number) => Move::Gives(Ending::Done(Outcome::Script(Value::Num(
            number,
        )))),
        ValueNumber::OutOfProfile => Move::Gives(Ending::Profile(NO_WHOLE_NUMBER)),
        ValueNumber::Symbol => Move::Gives(Ending::Throw(Code::Symbol)),
        ValueNumber::Object => by_primitive(Want::Number, Hint::PrefersNumber, value),
    }
}

/// The first move of a value's conversion to a String. A String is taken as it is.
///
/// # Errors
///
/// `AllocError` where there is no memory.
fn to_text(alloc: Global, value: Value) -> Result<Move, AllocError>
    ensures dialog { IfOk result (λ m. (list : DefsTerm) → move_dialog list m ≡ to_text value (text_in value)) }
    ensures weight { IfOk result (λ m. (list : DefsTerm) → weight list m ≤ load list (Scalar Want.Text value)) }
{
    match value {
        Value::Str(text) => Ok(gives_text(text)),
        value => write_text(alloc, value),
    }
}

/// The same, of any value.
///
/// # Errors
///
/// `AllocError` where there is no memory.
fn write_text(alloc: Global, value: Value) -> Result<Move, AllocError>
    ensures dialog { IfOk result (λ m. (list : DefsTerm) → move_dialog list m ≡ to_text value (text_in value)) }
    ensures weight { IfOk result (λ m. (list : DefsTerm) → weight list m ≤ load list (Scalar Want.Text value)) }
{
    match text_in_value(alloc, &value)? {
        ValueText::Text(text) => Ok(gives_text(text)),
        ValueText::Symbol => Ok(Move::Gives(Ending::Throw(Code::Symbol))),
        ValueText::Object => Ok(by_primitive(Want::Text, Hint::PrefersString, value)),
    }
}

/// The end with a String.
pub(crate) fn gives_text(text: Units) -> Move
    ensures dialog { (list : DefsTerm) → move_dialog list result ≡ returns (Value.Str text) }
    ensures weight { (list : DefsTerm) → weight list result ≡ 0 }
{
    Move::Gives(Ending::Done(Outcome::Script(Value::Str(text))))
}

/// The way over the primitive value of an object.
fn by_primitive(want: Want, hint: Hint, value: Value) -> Move
    ensures dialog { (list : DefsTerm) → move_dialog list result ≡ Steps (Primitive hint value) (returned (plain_to (ValueFrame.Scalar want))) }
    ensures weight { (list : DefsTerm) → weight list result ≡ object_load }
{
    Move::Steps(
        Frame::Value(ValueFrame::Scalar(want)),
        Job::Primitive { hint, value },
    )
}

/// The move after a primitive value.
pub(crate) fn with_primitive(want: Want, value: Value) -> Move
    ensures dialog { (list : DefsTerm) → move_dialog list result ≡ Steps (Scalar want value) End }
    ensures weight { (list : DefsTerm) → weight list result ≡ 1 + load list (Scalar want value) }
{
    Move::Goes(Job::Scalar { want, value })
}

/// The move after a Number that becomes a length.
pub(crate) fn to_length(number: Number) -> Move
    ensures dialog { (list : DefsTerm) → move_dialog list result ≡ returns (length_value number) }
    ensures weight { (list : DefsTerm) → weight list result ≡ 0 }
{
    let length = i128::from(length_of_number(number));
    Move::Gives(Ending::Done(Outcome::Script(Value::Num(Number::Whole(length)))))
}
