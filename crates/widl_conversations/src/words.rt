//! How values and ends are told.

use std::fmt::{self, Display};
use widl_convert::{Next, Outcome, ScriptEntries};
use widl_text::{Key, Units};
use widl_trace::Event;
use widl_value::{IdlEntries, IdlMembers, IdlValue, IdlValues, Number, ObjRef, Value, Values};

/// Of a text with more units only the number of units is told.
const LONG_TEXT: usize = 64;

/// Of more values only the number, the first and the last are told.
const MANY_VALUES: usize = 32;

/// What is told in words.
#[derive(Clone, Copy)]
pub struct Told<'a, T>(pub &'a T);

/// What is told in words, where it stands in an IDL value.
#[derive(Clone, Copy)]
struct Inner<'a, T>(&'a T);

/// What stands before the value at a place.
fn sign_before(place: usize) -> &'static str {
    if place == 0 { "" } else { ", " }
}

/// Whether a text has nothing but letters, digits and signs of ASCII.
fn is_plain(units: &[u16]) -> bool {
    for unit in units {
        if *unit < 0x20 || *unit > 0x7E {
            return false;
        }
    }
    true
}

/// Writes a text of plain units.
fn write_plain<W: fmt::Write>(units: &[u16], f: &mut fmt::Formatter<W>) -> fmt::Result {
    for unit in units {
        f.write_char(char::from_u32(u32::from(*unit)).unwrap_or(' '))?;
    }
    Ok(())
}

/// A text between backquotes, or its units where some of them are no plain ones.
impl fmt::Display for Told<'_, Units> {
    fn fmt<W: fmt::Write>(&self, f: &mut fmt::Formatter<W>) -> fmt::Result {
        let units = self.0.as_slice();
        if units.len() > LONG_TEXT {
            return write!(f, "text of {} units", units.len());
        }
        if !is_plain(units) {
            return write!(f, "units {units:?}");
        }
        f.write_str("`")?;
        write_plain(units, f)?;
        f.write_str("`")
    }
}

impl fmt::Display for Told<'_, Number> {
    fn fmt<W: fmt::Write>(&self, f: &mut fmt::Formatter<W>) -> fmt::Result {
        match self.0 {
            Number::Whole(n) => write!(f, "{n}"),
            Number::NaN => f.write_str("NaN"),
            Number::PosInf => f.write_str("Infinity"),
            Number::NegInf => f.write_str("-Infinity"),
        }
    }
}

impl fmt::Display for Told<'_, Value> {
    fn fmt<W: fmt::Write>(&self, f: &mut fmt::Formatter<W>) -> fmt::Result {
        match self.0 {
            Value::Undefined => f.write_str("undefined"),
            Value::Null => f.write_str("null"),
            Value::Bool(truth) => write!(f, "{truth}"),
            Value::Num(number) => Told(number).fmt(f),
            Value::Str(units) => Told(units).fmt(f),
            Value::Sym(id) => write!(f, "@{id}"),
            Value::Obj(ObjRef { id, shape: _ }) => write!(f, "#{id}"),
        }
    }
}

/// The values, with a space before each.
impl fmt::Display for Told<'_, Values> {
    fn fmt<W: fmt::Write>(&self, f: &mut fmt::Formatter<W>) -> fmt::Result {
        for value in self.0.as_slice() {
            write!(f, " {}", Told(value))?;
        }
        Ok(())
    }
}

/// A symbol, or a text without backquotes.
impl fmt::Display for Told<'_, Key> {
    fn fmt<W: fmt::Write>(&self, f: &mut fmt::Formatter<W>) -> fmt::Result {
        match self.0 {
            Key::Name(units) => write_plain(units.as_slice(), f),
            Key::Sym(id) => write!(f, "@{id}"),
        }
    }
}

/// The properties, with a space before each.
impl fmt::Display for Told<'_, ScriptEntries> {
    fn fmt<W: fmt::Write>(&self, f: &mut fmt::Formatter<W>) -> fmt::Result {
        for (key, value) in self.0.as_slice() {
            write!(f, " {} = {}", Told(key), Told(value))?;
        }
        Ok(())
    }
}

/// An IDL value in another; of one that has parts only the kind is told.
impl fmt::Display for Inner<'_, IdlValue> {
    fn fmt<W: fmt::Write>(&self, f: &mut fmt::Formatter<W>) -> fmt::Result {
        match self.0 {
            IdlValue::Undefined => f.write_str("undefined"),
            IdlValue::Null => f.write_str("null"),
            IdlValue::Missing => f.write_str("missing"),
            IdlValue::Bool(truth) => write!(f, "{truth}"),
            IdlValue::Int(n) => write!(f, "{n}"),
            IdlValue::Text(units) => Told(units).fmt(f),
            IdlValue::Object(obj) => write!(f, "object {}", obj.id),
            IdlValue::Any(value) => write!(f, "any {}", Told(value)),
            IdlValue::Choice { of, index } => write!(f, "value {of}.{index}"),
            IdlValue::List(values) => write!(f, "list of {}", values.len()),
            IdlValue::Entries(entries) => write!(f, "record of {}", entries.len()),
            IdlValue::Dict { of, members } => write!(f, "dictionary {of} of {}", members.len()),
            IdlValue::Promise(promise) => write!(f, "promise {}", promise.id),
        }
    }
}

/// An IDL value.
impl fmt::Display for Told<'_, IdlValue> {
    fn fmt<W: fmt::Write>(&self, f: &mut fmt::Formatter<W>) -> fmt::Result {
        match self.0 {
            IdlValue::List(values) => write!(f, "list {}", Inner(values)),
            IdlValue::Entries(entries) => write!(f, "record {}", Inner(entries)),
            IdlValue::Dict { of, members } => write!(f, "dictionary {of} {}", Inner(members)),
            value => Inner(value).fmt(f),
        }
    }
}

/// The values of arguments between parentheses; of many the number, the first and the last.
impl fmt::Display for Told<'_, IdlValues> {
    fn fmt<W: fmt::Write>(&self, f: &mut fmt::Formatter<W>) -> fmt::Result {
        let count = self.0.len();
        if count > MANY_VALUES {
            let (first, last) = (self.0.at(0), self.0.at(count - 1));
            return write!(f, "of {count}, {} to {}", Told(first), Told(last));
        }
        f.write_str("(")?;
        for place in 0..count {
            f.write_str(sign_before(place))?;
            Told(self.0.at(place)).fmt(f)?;
        }
        f.write_str(")")
    }
}

/// The values of a sequence between parentheses.
impl fmt::Display for Inner<'_, IdlValues> {
    fn fmt<W: fmt::Write>(&self, f: &mut fmt::Formatter<W>) -> fmt::Result {
        f.write_str("(")?;
        for place in 0..self.0.len() {
            f.write_str(sign_before(place))?;
            Inner(self.0.at(place)).fmt(f)?;
        }
        f.write_str(")")
    }
}

/// The entries between parentheses.
impl fmt::Display for Inner<'_, IdlEntries> {
    fn fmt<W: fmt::Write>(&self, f: &mut fmt::Formatter<W>) -> fmt::Result {
        f.write_str("(")?;
        for place in 0..self.0.len() {
            let (key, value) = self.0.at(place);
            f.write_str(sign_before(place))?;
            write!(f, "{} = {}", Told(key), Inner(value))?;
        }
        f.write_str(")")
    }
}

/// The members between parentheses, each with the numbers of its dictionary and of its own.
impl fmt::Display for Inner<'_, IdlMembers> {
    fn fmt<W: fmt::Write>(&self, f: &mut fmt::Formatter<W>) -> fmt::Result {
        f.write_str("(")?;
        for place in 0..self.0.len() {
            let (of, index, value) = self.0.at(place);
            f.write_str(sign_before(place))?;
            write!(f, "{of}.{index} = {}", Inner(value))?;
        }
        f.write_str(")")
    }
}

impl fmt::Display for Told<'_, Event> {
    fn fmt<W: fmt::Write>(&self, f: &mut fmt::Formatter<W>) -> fmt::Result {
        match self.0 {
            Event::Op {
                callee: _,
                overload: Some(overload),
                values,
            } => { write!(f, "op #{overload} {}", Told(values)) }
            _ => f.write_str("another event"),
        }
    }
}

impl fmt::Display for Told<'_, Outcome> {
    fn fmt<W: fmt::Write>(&self, f: &mut fmt::Formatter<W>) -> fmt::Result {
        match self.0 {
            Outcome::Idl(value) => Told(value).fmt(f),
            Outcome::Script(value) => Told(value).fmt(f),
            Outcome::Chosen { overload, values } => write!(f, "#{overload} {}", Told(values)),
        }
    }
}

/// What comes next in a conversation: an ask, or its end.
impl fmt::Display for Told<'_, Next> {
    fn fmt<W: fmt::Write>(&self, f: &mut fmt::Formatter<W>) -> fmt::Result {
        match self.0 {
            Next::Ask(ask) => Told(ask).fmt(f),
            Next::Done(outcome) => Told(outcome).fmt(f),
            Next::Throw(code) => write!(f, "throws {code:?}"),
            Next::Rethrow(value) => write!(f, "rethrows {}", Told(value)),
            Next::Profile(number) => write!(f, "profile {number}"),
            Next::Memory => f.write_str("memory"),
        }
    }
}
