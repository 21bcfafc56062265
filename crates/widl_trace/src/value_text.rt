//! Values and keys in lines.

ghost use Rattle.std.specs.Prelude.{◌≡◌, ◌<◌, codes, decimal, map};
ghost use Rattle.std.specs.Fmt.{signed_decimal};
ghost use Rattle.widl_spell.specs.Names.{separated};
ghost use Rattle.widl_trace.specs.Drafts.{Adds};
ghost use Rattle.widl_trace.specs.ValueTexts.{boolean_text, escape, exact_text, hex_digit, is_itself, key_text, object_text, quoted, symbol_text, unit_text, value_text};

use crate::cut::Cut;
use crate::draft::Draft;
use itoa::Buffer;
use widl_spell::sign_before;
use widl_text::Key;
use widl_value::{Number, ObjRef, Value};

/// Adds a value of the script language.
pub fn push_value(draft: &mut Draft, value: &Value) -> Result<(), Cut>
    ensures { Adds draft.old draft.new (value_text value.now) result }
{
    match value {
        Value::Undefined => draft.push(b"undefined"),
        Value::Null => draft.push(b"null"),
        Value::Bool(b) => draft.push(boolean_text(*b)),
        Value::Num(number) => push_number(draft, *number),
        Value::Str(text) => push_quoted(draft, text.as_slice()),
        Value::Sym(id) => push_symbol(draft, *id),
        Value::Obj(obj) => push_object(draft, *obj),
    }
}

/// Adds values with a comma and a space between each two.
pub fn push_values(draft: &mut Draft, values: &[Value]) -> Result<(), Cut>
    ensures { Adds draft.old draft.new (separated (codes ", ") (map value_text values.now)) result }
{
    for (place, value) in values.iter().enumerate() {
        draft.push(sign_before(b", ", place))?;
        push_value(draft, value)?;
    }
    Ok(())
}

/// Adds the key of a property.
pub fn push_key(draft: &mut Draft, key: &Key) -> Result<(), Cut>
    ensures { Adds draft.old draft.new (key_text key.now) result }
{
    match key {
        Key::Name(text) => push_quoted(draft, text.as_slice()),
        Key::Sym(id) => push_symbol(draft, *id),
    }
}

/// Adds the number of an object.
pub fn push_object(draft: &mut Draft, obj: ObjRef) -> Result<(), Cut>
    ensures { Adds draft.old draft.new (object_text obj) result }
{
    draft.push(b"#")?;
    push_decimal(draft, obj.id)
}

/// Adds the digits of a number.
pub fn push_decimal(draft: &mut Draft, number: u32) -> Result<(), Cut>
    ensures { Adds draft.old draft.new (decimal number) result }
{
    let mut digits = Buffer::new();
    draft.push(digits.format(number).as_bytes())
}

/// Adds the digits of a whole number.
pub fn push_whole(draft: &mut Draft, number: i128) -> Result<(), Cut>
    ensures { Adds draft.old draft.new (signed_decimal number) result }
{
    let mut digits = Buffer::new();
    draft.push(digits.format(number).as_bytes())
}

/// The text of a Boolean.
pub fn boolean_text(b: bool) -> &'static [u8]
    ensures { result.now ≡ boolean_text b }
{
    if b { b"true" } else { b"false" }
}

/// Adds a text in quotes.
pub fn push_quoted(draft: &mut Draft, text: &[u16]) -> Result<(), Cut>
    ensures { Adds draft.old draft.new (quoted text.now) result }
{
    draft.push_byte(b'"')?;
    for unit in text {
        push_unit(draft, *unit)?;
    }
    draft.push_byte(b'"')
}

/// Adds a unit of a text.
fn push_unit(draft: &mut Draft, unit: u16) -> Result<(), Cut>
    ensures { Adds draft.old draft.new (unit_text unit) result }
{
    if is_itself(unit) {
        draft.push_byte(unit as u8)
    } else {
        draft.push(&escape(unit))
    }
}

/// Whether a unit of a text stands for itself.
fn is_itself(unit: u16) -> bool
    ensures { result ≡ is_itself unit }
{
    32 <= unit && unit <= 126 && !(unit == 34 || unit == 92)
}

/// A unit of a text by its hexadecimal digits.
fn escape(unit: u16) -> [u8; 6]
    ensures { result ≡ escape unit }
{
    [
        b'\\',
        b'u',
        hex_digit(unit / 4096 % 16),
        hex_digit(unit / 256 % 16),
        hex_digit(unit / 16 % 16),
        hex_digit(unit % 16),
    ]
}

/// A hexadecimal digit, in lower case.
fn hex_digit(digit: u16) -> u8
    requires { digit < 16 }
    ensures { result ≡ hex_digit digit }
{
    if digit < 10 {
        b'0' + digit as u8
    } else {
        b'a' - 10 + digit as u8
    }
}

/// Adds a number of the script language, a whole one with all its digits.
fn push_number(draft: &mut Draft, number: Number) -> Result<(), Cut>
    ensures { Adds draft.old draft.new (exact_text number) result }
{
    match number {
        Number::NaN => draft.push(b"NaN"),
        Number::PosInf => draft.push(b"Infinity"),
        Number::NegInf => draft.push(b"-Infinity"),
        Number::Whole(n) => push_whole(draft, n),
    }
}

/// Adds a symbol: three have names, the others numbers.
fn push_symbol(draft: &mut Draft, id: u32) -> Result<(), Cut>
    ensures { Adds draft.old draft.new (symbol_text id) result }
{
    match id {
        0 => draft.push(b"@iterator"),
        1 => draft.push(b"@toPrimitive"),
        2 => draft.push(b"@toStringTag"),
        _ => {
            draft.push(b"@")?;
            push_decimal(draft, id)
        }
    }
}
