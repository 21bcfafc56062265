//! Values to IDL values: to all types, and the ways of those that need no more than a Number or a String.

ghost use Rattle.std.specs.Prelude.{◌≡◌, ◌≤◌, IfOk};
ghost use Rattle.widl_dialog.specs.Dialog.{Steps};
ghost use Rattle.widl_idl.specs.DefinitionTerms.{DefsTerm, defs_term};
ghost use Rattle.widl_idl.specs.Terms.{NullableType, type_term};
ghost use Rattle.widl_overload.specs.sets.Entries.{declared_args, entry_for, type_at};
ghost use Rattle.widl_scalar.specs.Enumerations.{value_place};
ghost use Rattle.widl_scalar.specs.Scalars.{integer_of};
ghost use Rattle.widl_value.specs.IdlTerms.{ObjectValue, StringValue, idl_term};
ghost use Rattle.widl_steps.specs.Built.{built_today};
ghost use Rattle.widl_steps.specs.Scalars.{convert, convert_plain, enumeration_result, integer_result, null_or_string, string_result};
ghost use Rattle.widl_steps.specs.Tasks.{Scalar};
ghost use Rattle.widl_steps.specs.Words.{fails, gives, not_built, number, object, text};
ghost use Rattle.widl_convert.specs.Frames.{move_dialog, number_to, text_to};
ghost use Rattle.widl_convert.specs.Loads.{conversion_load, scalar_conversion_load, type_load, value_load, weight};
ghost use Rattle.widl_convert.specs.Stack.{Leads};

use crate::dictionary::to_dictionary;
use crate::entry::standing;
use crate::frames::{Frame, NumberFrame, TextFrame};
use crate::jobs::{ArgumentPlace, Job};
use crate::moves::{Ending, Move};
use crate::nullable::null_of;
use crate::outcome::Outcome;
use crate::record::to_record;
use crate::scalar_types::{Given, ScalarType, scalar_within};
use crate::sequence::to_sequence;
use crate::union::{by_member, is_null_of};
use std::alloc::{AllocError, Global};
use widl_idl::{IdlType, IntKind, Mode, TextKind};
use widl_scalar::{is_byte_text, scalar_text, to_int, truth};
use widl_steps::Want;
use widl_tables::Tables;
use widl_text::Units;
use widl_trace::Code;
use widl_value::{IdlValue, Number, Value};

/// The end of the profile for what isn't built.
const NOT_BUILT: u8 = 99;

/// The first move of a value's conversion to an IDL value of a type. Where the type is nullable or a
/// union, it is that of the conversion to a type inside.
///
/// A type of a list of definitions nests at most 16 levels, which bounds the recursion.
///
/// # Errors
///
/// `AllocError` where there is no memory.
#[cycle(convert)]
pub(crate) fn convert(
    alloc: Global,
    tables: &Tables,
    ty: &IdlType,
    value: Value,
) -> Result<Move, AllocError>
    ensures dialog { IfOk result (λ m. move_dialog (defs_term tables.now.defs) m ≡ convert built_today (defs_term tables.now.defs) (type_term ty.now) value) }
    ensures weight { IfOk result (λ m. weight (defs_term tables.now.defs) m ≤ type_load (type_term ty.now)) }
{
    match ty {
        IdlType::Nullable(inner) => to_nullable(alloc, tables, inner, value),
        IdlType::Union(members) => if is_null_of(ty, &value) {
            Ok(gives(IdlValue::Null))
        } else {
            by_member(alloc, tables, members, value)
        },
        IdlType::Any => convert_plain(alloc, ty, value),
        IdlType::Undefined => convert_plain(alloc, ty, value),
        IdlType::Boolean => convert_plain(alloc, ty, value),
        IdlType::Int(_, _) => convert_plain(alloc, ty, value),
        IdlType::Text { .. } => convert_plain(alloc, ty, value),
        IdlType::Choice(number) => Ok(by_text(TextFrame::Enumeration(*number), value)),
        IdlType::Object => convert_plain(alloc, ty, value),
        IdlType::Interface(_) => convert_plain(alloc, ty, value),
        IdlType::CallbackFn(_) => convert_plain(alloc, ty, value),
        IdlType::CallbackIface(_) => convert_plain(alloc, ty, value),
        IdlType::Dict(_) => convert_plain(alloc, ty, value),
        IdlType::Seq(_) => convert_plain(alloc, ty, value),
        IdlType::Rec(_, _) => convert_plain(alloc, ty, value),
        IdlType::Promise(_) => convert_plain(alloc, ty, value),
    }
}

/// The first move of a value's conversion to a nullable type, by its inner type.
///
/// # Errors
///
/// `AllocError` where there is no memory.
#[cycle(convert)]
#[tactic(auto, using(crate::proofs::TypeLoads::most_of_types))]
fn to_nullable(
    alloc: Global,
    tables: &Tables,
    inner: &IdlType,
    value: Value,
) -> Result<Move, AllocError>
    ensures dialog { IfOk result (λ m. move_dialog (defs_term tables.now.defs) m ≡ convert built_today (defs_term tables.now.defs) (NullableType (type_term inner.now)) value) }
    ensures weight { IfOk result (λ m. weight (defs_term tables.now.defs) m ≤ conversion_load) }
{
    match value {
        Value::Undefined => Ok(null_of(inner)),
        Value::Null => Ok(null_of(inner)),
        Value::Bool(b) => convert(alloc, tables, inner, Value::Bool(b)),
        Value::Num(number) => convert(alloc, tables, inner, Value::Num(number)),
        Value::Str(text) => convert(alloc, tables, inner, Value::Str(text)),
        Value::Sym(id) => convert(alloc, tables, inner, Value::Sym(id)),
        Value::Obj(obj) => convert(alloc, tables, inner, Value::Obj(obj)),
    }
}

/// The first move of a value's conversion to a type that is neither nullable nor a union.
///
/// # Errors
///
/// `AllocError` where there is no memory.
pub(crate) fn convert_plain(alloc: Global, ty: &IdlType, value: Value) -> Result<Move, AllocError>
    ensures dialog { IfOk result (λ m. (list : DefsTerm) → move_dialog list m ≡ convert_plain built_today list (type_term ty.now) value) }
    ensures weight { IfOk result (λ m. (list : DefsTerm) → weight list m ≤ type_load (type_term ty.now)) }
{
    match ty {
        IdlType::Any => Ok(gives(IdlValue::Any(value))),
        IdlType::Undefined => Ok(gives(IdlValue::Undefined)),
        IdlType::Boolean => Ok(gives(IdlValue::Bool(truth(&value)))),
        IdlType::Int(kind, mode) => Ok(by_number(NumberFrame::Integer(*kind, *mode), value)),
        IdlType::Text { kind, null_empty } => {
            Ok(null_or_string(alloc, *null_empty, *kind, value))
        }
        IdlType::Choice(number) => Ok(by_text(TextFrame::Enumeration(*number), value)),
        IdlType::Object => Ok(object(value)),
        IdlType::Interface(_) => Ok(not_built()),
        IdlType::CallbackFn(_) => Ok(not_built()),
        IdlType::CallbackIface(_) => Ok(not_built()),
        IdlType::Dict(number) => Ok(to_dictionary(*number, value)),
        IdlType::Seq(element) => to_sequence(alloc, element, value),
        IdlType::Rec(key, ty) => to_record(alloc, *key, ty, value),
        IdlType::Promise(_) => Ok(not_built()),
        IdlType::Nullable(_) => Ok(not_built()),
        IdlType::Union(_) => Ok(not_built()),
    }
}

/// The first move of a value's conversion to an IDL value of a type. A Number becomes a value of an integer type at once,
/// and a String one of a string type, also where the type is nullable or a union.
///
/// # Errors
///
/// `AllocError` where there is no memory.
pub(crate) fn convert_at_once(
    alloc: Global,
    tables: &Tables,
    ty: &IdlType,
    value: Value,
) -> Result<Move, AllocError>
    ensures leads { IfOk result (λ m. Leads (defs_term tables.now.defs) (convert built_today (defs_term tables.now.defs) (type_term ty.now) value) (move_dialog (defs_term tables.now.defs) m)) }
    ensures weight { IfOk result (λ m. weight (defs_term tables.now.defs) m ≤ type_load (type_term ty.now)) }
{
    match value {
        Value::Num(number) => convert_number(alloc, tables, ty, number),
        Value::Str(text) => convert_text(alloc, tables, ty, text),
        value => convert(alloc, tables, ty, value),
    }
}

/// The first move of a Number's conversion.
///
/// # Errors
///
/// `AllocError` where there is no memory.
fn convert_number(
    alloc: Global,
    tables: &Tables,
    ty: &IdlType,
    number: Number,
) -> Result<Move, AllocError>
    ensures leads { IfOk result (λ m. Leads (defs_term tables.now.defs) (convert built_today (defs_term tables.now.defs) (type_term ty.now) (Value.Num number)) (move_dialog (defs_term tables.now.defs) m)) }
    ensures weight { IfOk result (λ m. weight (defs_term tables.now.defs) m ≤ type_load (type_term ty.now)) }
{
    match scalar_within(tables.list().defs(), Given::Number, ty) {
        ScalarType::Integer(kind, mode) => Ok(to_integer(kind, mode, number)),
        ScalarType::Text(_) | ScalarType::Unknown => convert(alloc, tables, ty, Value::Num(number)),
    }
}

/// The first move of a String's conversion.
///
/// # Errors
///
/// `AllocError` where there is no memory.
fn convert_text(
    alloc: Global,
    tables: &Tables,
    ty: &IdlType,
    text: Units,
) -> Result<Move, AllocError>
    ensures leads { IfOk result (λ m. Leads (defs_term tables.now.defs) (convert built_today (defs_term tables.now.defs) (type_term ty.now) (Value.Str text)) (move_dialog (defs_term tables.now.defs) m)) }
    ensures weight { IfOk result (λ m. weight (defs_term tables.now.defs) m ≤ type_load (type_term ty.now)) }
{
    match scalar_within(tables.list().defs(), Given::Text, ty) {
        ScalarType::Text(kind) => to_string(alloc, kind, text),
        ScalarType::Integer(_, _) | ScalarType::Unknown => {
            convert(alloc, tables, ty, Value::Str(text))
        }
    }
}

/// The first move of an argument's conversion to the type at its place of an overload's entry of a
/// length.
///
/// # Errors
///
/// `AllocError` where there is no memory.
#[tactic(auto, using(crate::proofs::Suspending::led))]
pub(crate) fn convert_argument(
    alloc: Global,
    tables: &Tables,
    at: ArgumentPlace,
    length: u32,
    value: Value,
) -> Result<Move, AllocError>
    ensures leads { IfOk result (λ m. Leads (defs_term tables.now.defs) (convert built_today (defs_term tables.now.defs) (type_at (entry_for at.overload (declared_args (defs_term tables.now.defs) at.callee at.overload) length) at.place) value) (move_dialog (defs_term tables.now.defs) m)) }
    ensures weight { IfOk result (λ m. weight (defs_term tables.now.defs) m ≤ type_load (type_at (entry_for at.overload (declared_args (defs_term tables.now.defs) at.callee at.overload) length) at.place)) }
{
    match standing(tables.list().defs(), at, length) {
        None => Ok(gives(IdlValue::Any(value))),
        Some(standing) => convert_at_once(alloc, tables, standing.ty, value),
    }
}

/// The end with an IDL value.
pub(crate) fn gives(value: IdlValue) -> Move
    ensures dialog { (list : DefsTerm) → move_dialog list result ≡ gives (idl_term value) }
    ensures weight { (list : DefsTerm) → weight list result ≡ value_load (idl_term value) }
{
    Move::Gives(Ending::Done(Outcome::Idl(value)))
}

/// The end with a value of a string type.
fn gives_text(text: Units) -> Move
    ensures dialog { (list : DefsTerm) → move_dialog list result ≡ gives (StringValue text) }
    ensures weight { (list : DefsTerm) → weight list result ≡ 0 }
{
    gives(IdlValue::Text(text))
}

/// The end of what isn't built.
pub(crate) fn not_built() -> Move
    ensures dialog { (list : DefsTerm) → move_dialog list result ≡ not_built }
    ensures weight { (list : DefsTerm) → weight list result ≡ 0 }
{
    Move::Gives(Ending::Profile(NOT_BUILT))
}

/// The end with a new TypeError.
pub(crate) fn throws(reason: Code) -> Move
    ensures dialog { (list : DefsTerm) → move_dialog list result ≡ fails reason }
    ensures weight { (list : DefsTerm) → weight list result ≡ 0 }
{
    Move::Gives(Ending::Throw(reason))
}

/// The way over the value's Number.
pub(crate) fn by_number(frame: NumberFrame, value: Value) -> Move
    ensures dialog { (list : DefsTerm) → move_dialog list result ≡ Steps (Scalar Want.Number value) (number (number_to frame)) }
    ensures weight { (list : DefsTerm) → weight list result ≤ scalar_conversion_load }
{
    Move::Steps(
        Frame::Number(frame),
        Job::Scalar {
            want: Want::Number,
            value,
        },
    )
}

/// The way over the value's String.
fn by_text(frame: TextFrame, value: Value) -> Move
    ensures dialog { (list : DefsTerm) → move_dialog list result ≡ Steps (Scalar Want.Text value) (text (text_to list frame)) }
    ensures weight { (list : DefsTerm) → weight list result ≤ scalar_conversion_load }
{
    Move::Steps(
        Frame::Text(frame),
        Job::Scalar {
            want: Want::Text,
            value,
        },
    )
}

/// The first move of a value's conversion to a string type.
pub(crate) fn null_or_string(alloc: Global, null_empty: bool, kind: TextKind, value: Value) -> Move
    ensures dialog { (list : DefsTerm) → move_dialog list result ≡ null_or_string null_empty kind value }
    ensures weight { (list : DefsTerm) → weight list result ≤ scalar_conversion_load }
{
    match value {
        Value::Null => if null_empty {
            gives_text(Units::new(alloc))
        } else {
            by_text(TextFrame::String(kind), Value::Null)
        },
        value => by_text(TextFrame::String(kind), value),
    }
}

/// The end of a value's conversion to `object`.
fn object(value: Value) -> Move
    ensures dialog { (list : DefsTerm) → move_dialog list result ≡ object Code.NotObject (λ o. gives (ObjectValue o)) value }
    ensures weight { (list : DefsTerm) → weight list result ≡ 0 }
{
    match value {
        Value::Obj(obj) => gives(IdlValue::Object(obj)),
        _ => Move::Gives(Ending::Throw(Code::NotObject)),
    }
}

/// The move after a Number that becomes a value of an integer type.
pub(crate) fn to_integer(kind: IntKind, mode: Mode, number: Number) -> Move
    ensures dialog { (list : DefsTerm) → move_dialog list result ≡ integer_result (integer_of number kind mode) }
    ensures weight { (list : DefsTerm) → weight list result ≡ 0 }
{
    match to_int(number, kind, mode) {
        Ok(value) => gives(IdlValue::Int(value)),
        Err(_) => Move::Gives(Ending::Throw(Code::Range)),
    }
}

/// The move after a String that becomes a value of a string type.
///
/// # Errors
///
/// `AllocError` where there is no memory.
pub(crate) fn to_string(alloc: Global, kind: TextKind, text: Units) -> Result<Move, AllocError>
    ensures dialog { IfOk result (λ m. (list : DefsTerm) → move_dialog list m ≡ string_result kind text) }
    ensures weight { IfOk result (λ m. (list : DefsTerm) → weight list m ≡ 0) }
{
    match kind {
        TextKind::Dom => Ok(gives_text(text)),
        TextKind::Usv => Ok(gives_text(scalar_text(alloc, &text)?)),
        TextKind::Byte => Ok(to_bytes(text)),
    }
}

/// The end with a text of bytes.
fn to_bytes(text: Units) -> Move
    ensures dialog { (list : DefsTerm) → move_dialog list result ≡ string_result TextKind.Byte text }
    ensures weight { (list : DefsTerm) → weight list result ≡ 0 }
{
    if is_byte_text(&text) {
        gives_text(text)
    } else {
        Move::Gives(Ending::Throw(Code::Byte))
    }
}

/// The move after a String that becomes a value of an enumeration.
pub(crate) fn to_enumeration(tables: &Tables, number: u32, text: Units) -> Move
    ensures dialog { (list : DefsTerm) → move_dialog list result ≡ enumeration_result number (value_place tables.now.defs.choices number text) }
    ensures weight { (list : DefsTerm) → weight list result ≡ 0 }
{
    match tables.enum_at(number, &text) {
        Some(index) => gives(IdlValue::Choice { of: number, index }),
        None => Move::Gives(Ending::Throw(Code::Enum)),
    }
}
