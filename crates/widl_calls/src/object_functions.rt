//! The functions of Object.prototype.

ghost use Rattle.std.specs.Prelude.{◌≡◌, ◌++◌, codes, IfOk};
ghost use Rattle.std.specs.Str.{IsAscii};
ghost use Rattle.widl_idl.specs.DefinitionTerms.{DefsTerm};
ghost use Rattle.widl_steps.specs.Operations.{StepsOf};
ghost use Rattle.widl_steps.specs.AskTerms.{answer_term};
ghost use Rattle.widl_steps.specs.Words.{normal, returns};
ghost use Rattle.widl_steps.specs.ObjectFunctions.{by_kind, kind_in, kind_tag, object_to_string, object_value_of, tagged, with_tag};
ghost use Rattle.widl_calls.specs.Frames.{call_dialog, call_weight};

use crate::ends::{JOINS_LONG_TEXT, PRIMITIVE_THIS, fails, reaches, returns};
use crate::moves::{CallAsking, CallMove};
use crate::waits::CallWait;
use std::alloc::{AllocError, Global};
use widl_convert::Ending;
use widl_steps::{Answer, Ask, KindName};
use widl_text::{Key, Units};
use widl_trace::Code;
use widl_value::{ObjRef, Value};

/// The symbol `@toStringTag`.
const TO_STRING_TAG: u32 = 2;

/// The most units of a tag: with what stands around it the text has 65,536.
const MOST_TAG_UNITS: usize = 65_527;

/// The end with a text of ASCII characters.
///
/// # Errors
///
/// `AllocError` where there is no memory.
fn returns_text(alloc: Global, text: &str) -> Result<CallMove, AllocError>
    requires { IsAscii text.now }
    ensures dialog { IfOk result (λ m. (list : DefsTerm) (steps : StepsOf) → call_dialog list steps m ≡ returns (Value.Str text.now)) }
    ensures weight { IfOk result (λ m. (list : DefsTerm) → call_weight list m ≡ 0) }
{
    Ok(returns(Value::Str(Units::of_ascii(alloc, text)?)))
}

/// The first move of `toString` (ECMA-262, "Object.prototype.toString").
///
/// # Errors
///
/// `AllocError` where there is no memory.
pub(crate) fn to_string(alloc: Global, this: Value) -> Result<CallMove, AllocError>
    ensures dialog { IfOk result (λ m. (list : DefsTerm) (steps : StepsOf) → call_dialog list steps m ≡ object_to_string this) }
    ensures weight { IfOk result (λ m. (list : DefsTerm) → call_weight list m ≡ 0) }
{
    match this {
        Value::Undefined => returns_text(alloc, "[object Undefined]"),
        Value::Null => returns_text(alloc, "[object Null]"),
        Value::Obj(obj) => Ok(CallMove::Asks(CallAsking {
            ask: Ask::Get {
                obj,
                key: Key::Sym(TO_STRING_TAG),
            },
            wait: CallWait::Tag(obj),
        })),
        Value::Bool(_) | Value::Num(_) | Value::Str(_) | Value::Sym(_) => {
            Ok(reaches(PRIMITIVE_THIS))
        }
    }
}

/// The move after a completion of the read of a tag.
///
/// # Errors
///
/// `AllocError` where there is no memory.
pub(crate) fn with_answer(
    alloc: Global,
    obj: ObjRef,
    answer: Answer,
) -> Result<CallMove, AllocError>
    ensures { IfOk result (λ m. (list : DefsTerm) (steps : StepsOf) → call_dialog list steps m ≡ normal (with_tag obj) (answer_term answer)) }
{
    match answer {
        Answer::Thrown(value) => Ok(CallMove::Gives(Ending::Rethrow(value))),
        Answer::Normal(value) => with_tag(alloc, obj, value),
        _ => with_tag(alloc, obj, Value::Undefined),
    }
}

/// The move with the tag of an object: what is no text gives way to the object's kind.
///
/// # Errors
///
/// `AllocError` where there is no memory.
fn with_tag(alloc: Global, obj: ObjRef, tag: Value) -> Result<CallMove, AllocError>
    ensures { IfOk result (λ m. (list : DefsTerm) (steps : StepsOf) → call_dialog list steps m ≡ with_tag obj tag) }
{
    match tag {
        Value::Str(text) => tagged(alloc, &text),
        Value::Undefined
        | Value::Null
        | Value::Bool(_)
        | Value::Num(_)
        | Value::Sym(_)
        | Value::Obj(_) => Ok(CallMove::Asks(CallAsking {
            ask: Ask::Kind(obj),
            wait: CallWait::Kind,
        })),
    }
}

/// The end with a tag, which may be too long.
///
/// # Errors
///
/// `AllocError` where there is no memory.
fn tagged(alloc: Global, tag: &Units) -> Result<CallMove, AllocError>
    ensures { IfOk result (λ m. (list : DefsTerm) (steps : StepsOf) → call_dialog list steps m ≡ tagged tag.now) }
{
    if tag.len() > MOST_TAG_UNITS {
        return Ok(reaches(JOINS_LONG_TEXT));
    }
    let text = around_tag(alloc, tag)?;
    Ok(returns(Value::Str(text)))
}

/// A tag with what stands around it.
///
/// # Errors
///
/// `AllocError` where there is no memory.
fn around_tag(alloc: Global, tag: &Units) -> Result<Units, AllocError>
    ensures { IfOk result (λ units. units ≡ codes "[object " ++ tag.now ++ codes "]") }
{
    let mut units = Units::of_ascii(alloc, "[object ")?;
    for unit in tag.as_slice() {
        units.push(*unit)?;
    }
    units.push(0x5D)?;
    Ok(units)
}

/// The move with the kind of an object that has no tag.
///
/// # Errors
///
/// `AllocError` where there is no memory.
pub(crate) fn by_kind(alloc: Global, answer: Answer) -> Result<CallMove, AllocError>
    ensures dialog { IfOk result (λ m. (list : DefsTerm) (steps : StepsOf) → call_dialog list steps m ≡ by_kind (answer_term answer)) }
    ensures weight { IfOk result (λ m. (list : DefsTerm) → call_weight list m ≡ 0) }
{
    let kind = kind_in(answer);
    match kind {
        KindName::Array => returns_text(alloc, "[object Array]"),
        KindName::Function => returns_text(alloc, "[object Function]"),
        KindName::Error => returns_text(alloc, "[object Error]"),
        KindName::Promise | KindName::Other => returns_text(alloc, "[object Object]"),
    }
}

/// The kind that an answer tells. No other answer comes.
fn kind_in(answer: Answer) -> KindName
    ensures { result ≡ kind_in (answer_term answer) }
{
    match answer {
        Answer::Kind(kind) => kind,
        _ => KindName::Other,
    }
}

/// The end of `valueOf` (ECMA-262, "Object.prototype.valueOf").
pub(crate) fn value_of(this: Value) -> CallMove
    ensures dialog { (list : DefsTerm) (steps : StepsOf) → call_dialog list steps result ≡ object_value_of this }
    ensures weight { (list : DefsTerm) → call_weight list result ≡ 0 }
{
    match this {
        Value::Undefined | Value::Null => fails(Code::This),
        Value::Obj(obj) => returns(Value::Obj(obj)),
        Value::Bool(_) | Value::Num(_) | Value::Str(_) | Value::Sym(_) => reaches(PRIMITIVE_THIS),
    }
}
