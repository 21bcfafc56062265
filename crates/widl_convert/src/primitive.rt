//! Objects to primitive values.

ghost use Rattle.std.specs.Prelude.{◌≡◌, IfOk};
ghost use Rattle.std.specs.Str.{IsAscii};
ghost use Rattle.widl_idl.specs.DefinitionTerms.{DefsTerm};
ghost use Rattle.widl_steps.specs.Primitives.{call_method, found_method, found_ordinary, hint_text, ordinary, primitive_result, to_primitive, tried, try_method};
ghost use Rattle.widl_steps.specs.Words.{fails};
ghost use Rattle.widl_convert.specs.Frames.{move_dialog, otherwise_of, primitive_to};
ghost use Rattle.widl_convert.specs.Loads.{weight};

use crate::moves::{Asking, Ending, Move};
use crate::outcome::Outcome;
use crate::waits::{ValueWait, Wait};
use std::alloc::{AllocError, Global};
use widl_steps::{Ask, Hint};
use widl_text::{Key, Units};
use widl_trace::Code;
use widl_value::{ObjRef, Shape, Value, Values};

/// The symbol `@toPrimitive`.
const TO_PRIMITIVE: u32 = 1;

/// What is tried where an ordinary method gave no primitive value.
#[derive(Clone, Copy)]
pub enum Otherwise {
    /// The method `valueOf`.
    ValueOf,
    /// The method `toString`.
    ToString,
    /// Nothing: there is no primitive value.
    Nothing,
}

/// What waits for a value on the way from an object to its primitive value.
#[derive(Drop)]
pub enum PrimitiveWait {
    /// It is what `@toPrimitive` of the object is.
    Method {
        /// Which primitive value is preferred.
        hint: Hint,
        /// The object.
        obj: ObjRef,
    },
    /// It is what `@toPrimitive` gave.
    MethodResult,
    /// It is what an ordinary method of the object is.
    Ordinary {
        /// The object.
        obj: ObjRef,
        /// What is tried after it.
        otherwise: Otherwise,
    },
    /// It is what an ordinary method gave.
    OrdinaryResult {
        /// The object.
        obj: ObjRef,
        /// What is tried after it.
        otherwise: Otherwise,
    },
}

/// The first move of a value's conversion to a primitive value.
pub(crate) fn to_primitive(hint: Hint, value: Value) -> Move
    ensures dialog { (list : DefsTerm) → move_dialog list result ≡ to_primitive hint value }
    ensures weight { (list : DefsTerm) → weight list result ≡ 0 }
{
    match value {
        Value::Obj(obj) => Move::Asks(Asking {
            ask: Ask::Get {
                obj,
                key: Key::Sym(TO_PRIMITIVE),
            },
            wait: Wait::Value(ValueWait::Primitive(PrimitiveWait::Method { hint, obj })),
        }),
        value => Move::Gives(Ending::Done(Outcome::Script(value))),
    }
}

/// The move after a value that was waited for.
pub(crate) fn with_value(
    alloc: Global,
    wait: PrimitiveWait,
    value: Value,
) -> Result<Move, AllocError>
    ensures { IfOk result (λ m. (list : DefsTerm) → move_dialog list m ≡ primitive_to wait value) }
{
    match wait {
        PrimitiveWait::Method { hint, obj } => found_method(alloc, hint, obj, value),
        PrimitiveWait::MethodResult => Ok(primitive_result(value)),
        PrimitiveWait::Ordinary { obj, otherwise } => found_ordinary(alloc, obj, otherwise, value),
        PrimitiveWait::OrdinaryResult { obj, otherwise } => tried(alloc, obj, otherwise, value),
    }
}

/// The move with what `@toPrimitive` of an object is.
fn found_method(alloc: Global, hint: Hint, obj: ObjRef, value: Value) -> Result<Move, AllocError>
    ensures { IfOk result (λ m. (list : DefsTerm) → move_dialog list m ≡ found_method hint obj value) }
{
    match value {
        Value::Undefined | Value::Null => ordinary(alloc, hint, obj),
        Value::Obj(f) => match f.shape {
            Shape::Callable => call_method(alloc, hint, obj, f),
            Shape::Plain | Shape::Platform(_) => Ok(throws(Code::NotCallable)),
        },
        _ => Ok(throws(Code::NotCallable)),
    }
}

/// The call of the method `@toPrimitive` of an object.
fn call_method(alloc: Global, hint: Hint, obj: ObjRef, f: ObjRef) -> Result<Move, AllocError>
    ensures { IfOk result (λ m. (list : DefsTerm) → move_dialog list m ≡ call_method hint obj f) }
{
    let mut args = Values::new(alloc);
    args.push(Value::Str(hint_text(alloc, hint)?))?;
    Ok(Move::Asks(Asking {
        ask: Ask::Call {
            f,
            this: Value::Obj(obj),
            args,
        },
        wait: Wait::Value(ValueWait::Primitive(PrimitiveWait::MethodResult)),
    }))
}

/// The text of a hint.
fn hint_text(alloc: Global, hint: Hint) -> Result<Units, AllocError>
    ensures { IfOk result (λ text. text ≡ hint_text hint) }
{
    match hint {
        Hint::PrefersNumber => Units::of_ascii(alloc, "number"),
        Hint::PrefersString => Units::of_ascii(alloc, "string"),
    }
}

/// The end with a new TypeError.
fn throws(reason: Code) -> Move
    ensures { (list : DefsTerm) → move_dialog list result ≡ fails reason }
{
    Move::Gives(Ending::Throw(reason))
}

/// The move with what `@toPrimitive` gave.
fn primitive_result(value: Value) -> Move
    ensures { (list : DefsTerm) → move_dialog list result ≡ primitive_result value }
{
    match value {
        Value::Obj(_) => throws(Code::Primitive),
        value => Move::Gives(Ending::Done(Outcome::Script(value))),
    }
}

/// The ordinary methods of an object, in the order of the hint (ECMA-262, "OrdinaryToPrimitive").
fn ordinary(alloc: Global, hint: Hint, obj: ObjRef) -> Result<Move, AllocError>
    ensures { IfOk result (λ m. (list : DefsTerm) → move_dialog list m ≡ ordinary hint obj) }
{
    match hint {
        Hint::PrefersNumber => try_method(alloc, obj, "valueOf", Otherwise::ToString),
        Hint::PrefersString => try_method(alloc, obj, "toString", Otherwise::ValueOf),
    }
}

/// What is tried where an ordinary method of an object gave no primitive value.
fn try_next(alloc: Global, obj: ObjRef, otherwise: Otherwise) -> Result<Move, AllocError>
    ensures { IfOk result (λ m. (list : DefsTerm) → move_dialog list m ≡ otherwise_of otherwise obj) }
{
    match otherwise {
        Otherwise::ValueOf => try_method(alloc, obj, "valueOf", Otherwise::Nothing),
        Otherwise::ToString => try_method(alloc, obj, "toString", Otherwise::Nothing),
        Otherwise::Nothing => Ok(throws(Code::Primitive)),
    }
}

/// Reads an ordinary method of an object.
fn try_method(
    alloc: Global,
    obj: ObjRef,
    name: &str,
    otherwise: Otherwise,
) -> Result<Move, AllocError>
    requires { IsAscii name.now }
    ensures { IfOk result (λ m. (list : DefsTerm) → move_dialog list m ≡ try_method obj name.now (otherwise_of otherwise obj)) }
{
    let key = Key::Name(Units::of_ascii(alloc, name)?);
    Ok(Move::Asks(Asking {
        ask: Ask::Get { obj, key },
        wait: Wait::Value(ValueWait::Primitive(PrimitiveWait::Ordinary { obj, otherwise })),
    }))
}

/// The move with what an ordinary method of an object is: it is passed over where it can't be called.
fn found_ordinary(
    alloc: Global,
    obj: ObjRef,
    otherwise: Otherwise,
    value: Value,
) -> Result<Move, AllocError>
    ensures { IfOk result (λ m. (list : DefsTerm) → move_dialog list m ≡ found_ordinary obj (otherwise_of otherwise obj) value) }
{
    match value {
        Value::Obj(f) => call_ordinary(alloc, obj, otherwise, f),
        _ => try_next(alloc, obj, otherwise),
    }
}

/// The call of an ordinary method of an object, where that can be called.
fn call_ordinary(
    alloc: Global,
    obj: ObjRef,
    otherwise: Otherwise,
    f: ObjRef,
) -> Result<Move, AllocError>
    ensures { IfOk result (λ m. (list : DefsTerm) → move_dialog list m ≡ found_ordinary obj (otherwise_of otherwise obj) (Value.Obj f)) }
{
    match f.shape {
        Shape::Callable => Ok(Move::Asks(Asking {
            ask: Ask::Call {
                f,
                this: Value::Obj(obj),
                args: Values::new(alloc),
            },
            wait: Wait::Value(ValueWait::Primitive(PrimitiveWait::OrdinaryResult {
                obj,
                otherwise,
            })),
        })),
        Shape::Plain | Shape::Platform(_) => try_next(alloc, obj, otherwise),
    }
}

/// The move with what an ordinary method of an object gave.
fn tried(alloc: Global, obj: ObjRef, otherwise: Otherwise, value: Value) -> Result<Move, AllocError>
    ensures { IfOk result (λ m. (list : DefsTerm) → move_dialog list m ≡ tried (otherwise_of otherwise obj) value) }
{
    match value {
        Value::Obj(_) => try_next(alloc, obj, otherwise),
        value => Ok(Move::Gives(Ending::Done(Outcome::Script(value)))),
    }
}
