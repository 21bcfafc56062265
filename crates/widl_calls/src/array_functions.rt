//! The functions by which an array is iterated over: `values` of arrays, and `next` of their iterators.

ghost use Rattle.std.specs.Prelude.{◌≡◌, ◌<◌, ◌≤◌, ◌+◌, decimal, IfOk};
ghost use Rattle.widl_dialog.specs.Dialog.{End, Say};
ghost use Rattle.widl_text.specs.declared.key.Key.TheVariants.{Name};
ghost use Rattle.widl_idl.specs.DefinitionTerms.{DefsTerm};
ghost use Rattle.widl_steps.specs.Operations.{StepsOf};
ghost use Rattle.widl_steps.specs.AskTerms.{ChangeAsk, IsFree, OfChange, SetCursor, answer_term, ask_term, kind_of};
ghost use Rattle.widl_steps.specs.Words.{normal, returns};
ghost use Rattle.widl_steps.specs.ArrayFunctions.{array_iterator_next, array_values, by_cursor, by_turn, cursor_in, element_read, ends_iterator, iterator_result, length_read, read_in_turn, with_length};
ghost use Rattle.widl_convert.specs.Frames.{end_of};
ghost use Rattle.widl_convert.specs.Loads.{given_load};
ghost use Rattle.widl_calls.specs.ArrayWaits.{array_after, array_kind_for, array_patience, cursor_load, moved_load, with_turn};
ghost use Rattle.widl_calls.specs.Frames.{call_dialog, call_weight, length_load, length_to};

use crate::array_turns::{ArrayTurn, ArrayWait, ElementTurn};
use crate::ends::{PRIMITIVE_THIS, fails, reaches, returns};
use crate::frames::CallFrame;
use crate::jobs::CallJob;
use crate::moves::{CallAsking, CallMove};
use crate::waits::CallWait;
use itoa::Buffer;
use std::alloc::{AllocError, Global};
use widl_convert::{Ending, Outcome};
use widl_scalar::length_of_number;
use widl_steps::{Answer, Ask, CursorState, ScriptEntries};
use widl_store::Turn;
use widl_text::{Key, Units};
use widl_trace::Code;
use widl_value::{ObjRef, Value};

/// The first move of `values` (ECMA-262, "Array.prototype.values").
pub(crate) fn values(this: Value) -> CallMove
    ensures dialog { (list : DefsTerm) (steps : StepsOf) → call_dialog list steps result ≡ array_values this }
    ensures weight { (list : DefsTerm) → call_weight list result ≡ 0 }
{
    match this {
        Value::Undefined | Value::Null => fails(Code::This),
        Value::Obj(obj) => asks(Ask::NewArrayIterator(obj), ArrayWait::NewIterator),
        Value::Bool(_) | Value::Num(_) | Value::Str(_) | Value::Sym(_) => reaches(PRIMITIVE_THIS),
    }
}

/// The first move of `next` (ECMA-262, "%ArrayIteratorPrototype%.next").
pub(crate) fn next(this: Value) -> CallMove
    ensures dialog { (list : DefsTerm) (steps : StepsOf) → call_dialog list steps result ≡ array_iterator_next this }
    ensures weight { (list : DefsTerm) → call_weight list result ≤ cursor_load }
{
    match this {
        Value::Obj(iterator) => asks(Ask::Cursor(iterator), ArrayWait::Cursor(iterator)),
        Value::Undefined
        | Value::Null
        | Value::Bool(_)
        | Value::Num(_)
        | Value::Str(_)
        | Value::Sym(_) => fails(Code::This),
    }
}

/// An ask goes out.
fn asks(ask: Ask, wait: ArrayWait) -> CallMove
    requires { kind_of (ask_term ask) ≡ array_kind_for wait }
    ensures dialog { (list : DefsTerm) (steps : StepsOf) → call_dialog list steps result ≡ Say (ask_term ask) (array_after wait) }
    ensures weight { (list : DefsTerm) → call_weight list result ≡ array_patience wait }
{
    CallMove::Asks(CallAsking {
        ask,
        wait: CallWait::Array(wait),
    })
}

/// The move after an answer.
///
/// # Errors
///
/// `AllocError` where there is no memory.
pub(crate) fn array_answered(
    alloc: Global,
    wait: ArrayWait,
    answer: Answer,
) -> Result<CallMove, AllocError>
    ensures dialog { IfOk result (λ m. (list : DefsTerm) (steps : StepsOf) → call_dialog list steps m ≡ array_after wait (answer_term answer)) }
    ensures weight { IfOk result (λ m. (list : DefsTerm) → IsFree (array_kind_for wait) → call_weight list m < array_patience wait) }
{
    match wait {
        ArrayWait::NewIterator => Ok(made(answer)),
        ArrayWait::Cursor(iterator) => by_cursor(alloc, iterator, answer),
        ArrayWait::Begun(turn) => begun(alloc, turn),
        ArrayWait::Length(turn) => length_read(alloc, turn, answer),
        ArrayWait::Element(turn) => element_read(alloc, turn, answer),
        ArrayWait::Given(value) => iterator_result(alloc, Box::into_inner(value), false),
        ArrayWait::AtEnd => iterator_result(alloc, Value::Undefined, true),
        ArrayWait::Threw(ending) => Ok(CallMove::Gives(Box::into_inner(ending))),
        ArrayWait::NewResult => Ok(made(answer)),
    }
}

/// The end with an object that is made.
fn made(answer: Answer) -> CallMove
    ensures dialog { (list : DefsTerm) (steps : StepsOf) → call_dialog list steps result ≡ normal returns (answer_term answer) }
    ensures weight { (list : DefsTerm) → call_weight list result ≡ 0 }
{
    match answer {
        Answer::Thrown(value) => CallMove::Gives(Ending::Rethrow(value)),
        Answer::Normal(value) => returns(value),
        _ => returns(Value::Undefined),
    }
}

/// The move with how far an iterator has come.
///
/// # Errors
///
/// `AllocError` where there is no memory.
fn by_cursor(alloc: Global, iterator: ObjRef, answer: Answer) -> Result<CallMove, AllocError>
    ensures dialog { IfOk result (λ m. (list : DefsTerm) (steps : StepsOf) → call_dialog list steps m ≡ by_cursor iterator (cursor_in (answer_term answer))) }
    ensures weight { IfOk result (λ m. (list : DefsTerm) → call_weight list m < cursor_load) }
{
    match cursor_in(answer) {
        Some(CursorState::Array { of, next, turn }) => {
            by_turn(alloc, ArrayTurn { iterator, of, next }, turn)
        }
        Some(
            CursorState::Pairs {
                of: _,
                kind: _,
                next: _,
            },
        ) => Ok(fails(Code::This)),
        None => Ok(fails(Code::This)),
    }
}

/// The cursor that an answer tells. No other answer comes.
fn cursor_in(answer: Answer) -> Option<CursorState>
    ensures { result ≡ cursor_in (answer_term answer) }
{
    match answer {
        Answer::Cursor(state) => state,
        _ => None,
    }
}

/// The move of `next` by whether a turn is under way: one that runs isn't begun again.
///
/// # Errors
///
/// `AllocError` where there is no memory.
fn by_turn(alloc: Global, turn: ArrayTurn, state: Turn) -> Result<CallMove, AllocError>
    ensures dialog { IfOk result (λ m. (list : DefsTerm) (steps : StepsOf) → call_dialog list steps m ≡ by_turn turn.iterator turn.of turn.next state) }
    ensures weight { IfOk result (λ m. (list : DefsTerm) → call_weight list m < cursor_load) }
{
    match state {
        Turn::Idle => Ok(sets(
            turn.iterator,
            turn.next,
            Turn::Running,
            ArrayWait::Begun(turn),
        )),
        Turn::Running => Ok(fails(Code::Running)),
        Turn::Ended => iterator_result(alloc, Value::Undefined, true),
    }
}

/// Sets how far an iterator has come.
fn sets(iterator: ObjRef, next: u64, turn: Turn, wait: ArrayWait) -> CallMove
    requires { array_kind_for wait ≡ OfChange }
    ensures dialog { (list : DefsTerm) (steps : StepsOf) → call_dialog list steps result ≡ Say (ChangeAsk iterator (SetCursor next turn)) (array_after wait) }
    ensures weight { (list : DefsTerm) → call_weight list result ≡ array_patience wait }
{
    let ask = Ask::SetCursor {
        obj: iterator,
        next,
        turn,
    };
    asks(ask, wait)
}

/// A turn that throws ends the iterator first.
///
/// # Errors
///
/// `AllocError` where there is no memory.
fn throws(
    alloc: Global,
    iterator: ObjRef,
    next: u64,
    ending: Ending,
) -> Result<CallMove, AllocError>
    ensures dialog { IfOk result (λ m. (list : DefsTerm) (steps : StepsOf) → call_dialog list steps m ≡ ends_iterator iterator next (End (end_of ending))) }
    ensures weight { IfOk result (λ m. (list : DefsTerm) → call_weight list m ≡ moved_load + given_load (end_of ending)) }
{
    let wait = ArrayWait::Threw(Box::new(alloc, ending)?);
    Ok(sets(iterator, next, Turn::Ended, wait))
}

/// A turn reads the length of its array first.
///
/// # Errors
///
/// `AllocError` where there is no memory.
fn begun(alloc: Global, turn: ArrayTurn) -> Result<CallMove, AllocError>
    ensures dialog { IfOk result (λ m. (list : DefsTerm) (steps : StepsOf) → call_dialog list steps m ≡ with_turn turn) }
    ensures weight { IfOk result (λ m. (list : DefsTerm) → call_weight list m ≡ 0) }
{
    let key = Key::Name(Units::of_ascii(alloc, "length")?);
    Ok(asks(Ask::Get { obj: turn.of, key }, ArrayWait::Length(turn)))
}

/// The move after the read of a length.
///
/// # Errors
///
/// `AllocError` where there is no memory.
fn length_read(alloc: Global, turn: ArrayTurn, answer: Answer) -> Result<CallMove, AllocError>
    ensures { IfOk result (λ m. (list : DefsTerm) (steps : StepsOf) → call_dialog list steps m ≡ read_in_turn turn.iterator turn.next (length_read turn.iterator turn.of turn.next) (answer_term answer)) }
{
    match answer {
        Answer::Thrown(value) => throws(alloc, turn.iterator, turn.next, Ending::Rethrow(value)),
        Answer::Normal(value) => Ok(to_length(turn, value)),
        _ => Ok(to_length(turn, Value::Undefined)),
    }
}

/// A value becomes the length of an array.
fn to_length(turn: ArrayTurn, value: Value) -> CallMove
    ensures { (list : DefsTerm) (steps : StepsOf) → call_dialog list steps result ≡ length_read turn.iterator turn.of turn.next value }
{
    CallMove::Steps(CallFrame::Length(turn), CallJob::ToLength(value))
}

/// The move after the length of an array.
///
/// # Errors
///
/// `AllocError` where there is no memory.
pub(crate) fn length_given(
    alloc: Global,
    turn: ArrayTurn,
    ending: Ending,
) -> Result<CallMove, AllocError>
    ensures dialog { IfOk result (λ m. (list : DefsTerm) (steps : StepsOf) → call_dialog list steps m ≡ length_to turn (end_of ending)) }
    ensures weight { IfOk result (λ m. (list : DefsTerm) → call_weight list m < length_load + given_load (end_of ending)) }
{
    match ending {
        Ending::Throw(reason) => throws(alloc, turn.iterator, turn.next, Ending::Throw(reason)),
        Ending::Rethrow(value) => throws(alloc, turn.iterator, turn.next, Ending::Rethrow(value)),
        Ending::Done(Outcome::Script(Value::Num(number))) => {
            with_length(alloc, turn, length_of_number(number))
        }
        ending => Ok(CallMove::Gives(ending)),
    }
}

/// The move of a turn with the length of its array: it reads its element, or ends the iterator.
///
/// # Errors
///
/// `AllocError` where there is no memory.
fn with_length(alloc: Global, turn: ArrayTurn, length: u64) -> Result<CallMove, AllocError>
    ensures dialog { IfOk result (λ m. (list : DefsTerm) (steps : StepsOf) → call_dialog list steps m ≡ with_length turn.iterator turn.of turn.next length) }
    ensures weight { IfOk result (λ m. (list : DefsTerm) → call_weight list m < length_load) }
{
    let ArrayTurn { iterator, of, next } = turn;
    if next < length {
        let key = index_key(alloc, next)?;
        Ok(asks(
            Ask::Get { obj: of, key },
            ArrayWait::Element(ElementTurn { iterator, next }),
        ))
    } else {
        Ok(sets(iterator, next, Turn::Ended, ArrayWait::AtEnd))
    }
}

/// The key of an index: its decimal text.
///
/// # Errors
///
/// `AllocError` where there is no memory.
fn index_key(alloc: Global, index: u64) -> Result<Key, AllocError>
    ensures { IfOk result (λ key. key ≡ Name (decimal index)) }
{
    let mut buffer = Buffer::new();
    let text = Units::of_ascii(alloc, buffer.format(index))?;
    Ok(Key::Name(text))
}

/// The move after the read of an element.
///
/// # Errors
///
/// `AllocError` where there is no memory.
fn element_read(alloc: Global, turn: ElementTurn, answer: Answer) -> Result<CallMove, AllocError>
    ensures { IfOk result (λ m. (list : DefsTerm) (steps : StepsOf) → call_dialog list steps m ≡ read_in_turn turn.iterator turn.next (element_read turn.iterator turn.next) (answer_term answer)) }
{
    match answer {
        Answer::Thrown(value) => throws(alloc, turn.iterator, turn.next, Ending::Rethrow(value)),
        Answer::Normal(value) => gives_element(alloc, turn, value),
        _ => gives_element(alloc, turn, Value::Undefined),
    }
}

/// The move of a turn that gives an element: the iterator waits for its next turn.
///
/// # Errors
///
/// `AllocError` where there is no memory.
fn gives_element(alloc: Global, turn: ElementTurn, value: Value) -> Result<CallMove, AllocError>
    ensures { IfOk result (λ m. (list : DefsTerm) (steps : StepsOf) → call_dialog list steps m ≡ element_read turn.iterator turn.next value) }
{
    let ElementTurn { iterator, next } = turn;
    let wait = ArrayWait::Given(Box::new(alloc, value)?);
    Ok(sets(iterator, next + 1, Turn::Idle, wait))
}

/// The result of a turn is made (ECMA-262, "CreateIterResultObject").
///
/// # Errors
///
/// `AllocError` where there is no memory.
fn iterator_result(alloc: Global, value: Value, is_done: bool) -> Result<CallMove, AllocError>
    ensures dialog { IfOk result (λ m. (list : DefsTerm) (steps : StepsOf) → call_dialog list steps m ≡ iterator_result value is_done) }
    ensures weight { IfOk result (λ m. (list : DefsTerm) → call_weight list m ≡ 0) }
{
    let mut entries = ScriptEntries::new(alloc);
    entries.push((Key::Name(Units::of_ascii(alloc, "value")?), value))?;
    let done = Value::Bool(is_done);
    entries.push((Key::Name(Units::of_ascii(alloc, "done")?), done))?;
    Ok(asks(Ask::NewObject(entries), ArrayWait::NewResult))
}
