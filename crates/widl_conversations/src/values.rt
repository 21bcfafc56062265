//! Values of the script, as rows have them.
//!
//! A value is `undefined`, `null`, `true`, `false`, `NaN`, `Infinity`, `-Infinity`, a whole Number, a text between
//! backquotes, `unit N` (a text of this unit alone), `sym N` (a Symbol), `obj N` (an object that can't be called),
//! `fn N` (one that can be), or `platform N` (object 7, a platform object of interface N).

use crate::fault::Fault;
use std::alloc::Global;
use std::mem::ManuallyDrop;
use widl_text::Units;
use widl_value::{Number, ObjRef, Shape, Value, Values};

/// The object that each platform object is.
const PLATFORM_OBJECT: u32 = 7;

/// A text of one unit.
fn text_of_unit(alloc: Global, unit: u32) -> Result<Value, Fault> {
    let Ok(unit) = u16::try_from(unit) else {
        return Err(Fault::Line("a unit has 16 bits"));
    };
    let mut units = Units::new(alloc);
    units.push(unit)?;
    Ok(Value::Str(units))
}

/// The shape of the object that a kind of value and its number name.
fn shape_of(kind: &str, number: u32) -> Option<Shape> {
    match kind {
        "obj" => Some(Shape::Plain),
        "fn" => Some(Shape::Callable),
        "platform" => Some(Shape::Platform(number)),
        _ => None,
    }
}

/// A value with a number.
fn numbered(alloc: Global, kind: &str, number: u32) -> Result<Value, Fault> {
    if kind == "sym" {
        return Ok(Value::Sym(number));
    }
    if kind == "unit" {
        return text_of_unit(alloc, number);
    }
    match shape_of(kind, number) {
        Some(Shape::Platform(of)) => Ok(Value::Obj(ObjRef {
            id: PLATFORM_OBJECT,
            shape: Shape::Platform(of),
        })),
        Some(shape) => Ok(Value::Obj(ObjRef { id: number, shape })),
        None => Err(Fault::Line("a value is of no kind")),
    }
}

/// A value that is one word.
fn word(text: &str) -> Result<Value, Fault> {
    match text {
        "undefined" => Ok(Value::Undefined),
        "null" => Ok(Value::Null),
        "true" => Ok(Value::Bool(true)),
        "false" => Ok(Value::Bool(false)),
        "NaN" => Ok(Value::Num(Number::NaN)),
        "Infinity" => Ok(Value::Num(Number::PosInf)),
        "-Infinity" => Ok(Value::Num(Number::NegInf)),
        _ => Ok(Value::Num(Number::Whole(text.parse::<i128>()?))),
    }
}

/// What stands between backquotes.
fn quoted(text: &str) -> Option<&str> {
    text.strip_prefix('`')?.strip_suffix('`')
}

/// A value.
pub fn value_of(alloc: Global, text: &str) -> Result<Value, Fault> {
    if let Some(text) = quoted(text) {
        return Ok(Value::Str(Units::of_str(alloc, text)?));
    }
    match text.split_once(' ') {
        Some((kind, number)) => numbered(alloc, kind, number.parse::<u32>()?),
        None => word(text),
    }
}

/// Values with commas between; no text among them has a comma.
pub fn values_of(alloc: Global, text: &str) -> Result<Values, Fault> {
    let mut values = ManuallyDrop::new(Values::new(alloc));
    if !text.is_empty() {
        for value in text.split(',') {
            values.push(value_of(alloc, value.trim())?)?;
        }
    }
    Ok(ManuallyDrop::into_inner(values))
}
