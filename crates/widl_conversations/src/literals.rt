//! Literals and IDL values, as rows have them.

use crate::fault::Fault;
use crate::values::value_of;
use std::alloc::Global;
use std::mem::ManuallyDrop;
use widl_idl::Literal;
use widl_text::Units;
use widl_value::{IdlEntries, IdlMembers, IdlValue, IdlValues, Number, ObjRef, Shape, Value};

/// A literal: `[]`, `{}`, or what is written as a value.
pub fn literal_of(alloc: Global, text: &str) -> Result<Literal, Fault> {
    if text == "[]" {
        return Ok(Literal::EmptyList);
    }
    if text == "{}" {
        return Ok(Literal::EmptyDict);
    }
    match value_of(alloc, text)? {
        Value::Undefined => Ok(Literal::Undefined),
        Value::Null => Ok(Literal::Null),
        Value::Bool(truth) => Ok(Literal::Bool(truth)),
        Value::Num(Number::Whole(n)) => Ok(Literal::Int(n)),
        Value::Str(units) => Ok(Literal::Text(units)),
        _ => Err(Fault::Line("a value is no literal")),
    }
}

/// Two numbers with a point between.
fn place_of(text: &str) -> Result<(u32, u32), Fault> {
    match text.split_once('.') {
        Some((of, index)) => Ok((of.parse::<u32>()?, index.parse::<u32>()?)),
        None => Err(Fault::Line("two numbers are wanted")),
    }
}

/// The value of a number of an enumeration, `E.N`.
fn choice_of(text: &str) -> Result<IdlValue, Fault> {
    let (of, index) = place_of(text)?;
    Ok(IdlValue::Choice { of, index })
}

/// What stands before and behind an equals sign.
fn pair_of(text: &str) -> Result<(&str, &str), Fault> {
    match text.split_once('=') {
        Some((key, value)) => Ok((key.trim(), value.trim())),
        None => Err(Fault::Line("a key and a value are wanted")),
    }
}

/// A sequence of these values.
fn list_of(alloc: Global, text: &str) -> Result<IdlValue, Fault> {
    let mut values = ManuallyDrop::new(IdlValues::new(alloc));
    if !text.is_empty() {
        for item in text.split(',') {
            values.push(idl_plain(alloc, item.trim())?)?;
        }
    }
    Ok(IdlValue::List(ManuallyDrop::into_inner(values)))
}

/// A record of these entries.
fn entries_of(alloc: Global, text: &str) -> Result<IdlValue, Fault> {
    let mut entries = ManuallyDrop::new(IdlEntries::new(alloc));
    if !text.is_empty() {
        for entry in text.split(',') {
            let (key, value) = pair_of(entry)?;
            entries.push((Units::of_str(alloc, key)?, idl_plain(alloc, value)?))?;
        }
    }
    Ok(IdlValue::Entries(ManuallyDrop::into_inner(entries)))
}

/// A value of the dictionary of a number, with the members behind it.
fn dictionary_of(alloc: Global, text: &str) -> Result<IdlValue, Fault> {
    let (of, rest) = text.split_once(' ').unwrap_or((text, ""));
    let of = of.parse::<u32>()?;
    Ok(IdlValue::Dict {
        of,
        members: members_of(alloc, rest)?,
    })
}

/// These members.
fn members_of(alloc: Global, text: &str) -> Result<IdlMembers, Fault> {
    let mut members = ManuallyDrop::new(IdlMembers::new(alloc));
    if !text.is_empty() {
        for member in text.split(',') {
            let (key, value) = pair_of(member)?;
            let (of, index) = place_of(key)?;
            members.push((of, index, idl_plain(alloc, value)?))?;
        }
    }
    Ok(ManuallyDrop::into_inner(members))
}

/// The IDL value that is written as a value: an integer, a text, an object and the like.
fn idl_plain(alloc: Global, text: &str) -> Result<IdlValue, Fault> {
    match value_of(alloc, text)? {
        Value::Undefined => Ok(IdlValue::Undefined),
        Value::Null => Ok(IdlValue::Null),
        Value::Bool(truth) => Ok(IdlValue::Bool(truth)),
        Value::Num(Number::Whole(n)) => Ok(IdlValue::Int(n)),
        Value::Str(units) => Ok(IdlValue::Text(units)),
        Value::Obj(obj) => Ok(IdlValue::Object(obj)),
        _ => Err(Fault::Line("this is no IDL value")),
    }
}

/// An IDL value: `missing`, `any` and a value, `value E.N`, `list` and values, `entries` with `KEY = VALUE`, `dictionary N`
/// with `D.M = VALUE` (member M of dictionary D, which is N or one that it inherits from), a `promise`, or what is written as
/// a value.
pub fn idl_value_of(alloc: Global, text: &str) -> Result<IdlValue, Fault> {
    let (kind, rest) = text.split_once(' ').unwrap_or((text, ""));
    match kind {
        "missing" => Ok(IdlValue::Missing),
        "any" => Ok(IdlValue::Any(value_of(alloc, rest)?)),
        "value" => choice_of(rest),
        "list" => list_of(alloc, rest),
        "entries" => entries_of(alloc, rest),
        "dictionary" => dictionary_of(alloc, rest),
        "promise" => Ok(IdlValue::Promise(ObjRef {
            id: 4,
            shape: Shape::Plain,
        })),
        _ => idl_plain(alloc, text),
    }
}
