//! Values of the script to sequences.

ghost use Rattle.std.specs.Prelude.{◌≡◌, ◌<◌, [], IfOk, None, option_map};
ghost use Rattle.widl_dialog.specs.Dialog.{End, Say, Steps};
ghost use Rattle.widl_idl.specs.DefinitionTerms.{DefsTerm};
ghost use Rattle.widl_idl.specs.Flattened.{flattened_member, flattened_members};
ghost use Rattle.widl_idl.specs.Terms.{packed, type_term, type_terms};
ghost use Rattle.widl_value.specs.IdlTerms.{SequenceValue, idl_term, idl_terms, packed_values};
ghost use Rattle.widl_steps.specs.Sequences.{element, element_among, found_iterator_method, sequence_from, to_sequence, told_done, turn_given, turns, with_iterator, with_next};
ghost use Rattle.widl_steps.specs.Tasks.{Turns};
ghost use Rattle.widl_steps.specs.Words.{gives};
ghost use Rattle.widl_convert.specs.Frames.{idl_to, move_dialog, sequence_to};
ghost use Rattle.widl_convert.specs.Loads.{idl_frame_load, weight};

use crate::convert::{gives, throws};
use crate::frames::{Frame, IdlFrame};
use crate::jobs::Job;
use crate::moves::{Asking, Move};
use crate::waits::{ValueWait, Wait};
use std::alloc::{AllocError, Global};
use widl_idl::{IdlType, IdlTypes};
use widl_scalar::truth;
use widl_steps::Ask;
use widl_text::{Key, Units};
use widl_trace::Code;
use widl_value::{IdlValue, IdlValues, ObjRef, Shape, Value, Values};

/// The symbol `@iterator`.
pub(crate) const ITERATOR: u32 = 0;

/// An object with its method `@iterator`, of which a sequence is made.
#[derive(Drop)]
pub struct Iterable {
    /// The type of the elements.
    pub element: IdlType,
    /// The object.
    pub obj: ObjRef,
    /// The method.
    pub method: ObjRef,
}

/// The turns of an iterator, as far as they have come (ECMA-262, "Iterator Records").
#[derive(Drop)]
pub struct Iteration {
    /// The type of the elements.
    pub element: IdlType,
    /// The iterator.
    pub iterator: ObjRef,
    /// Its method `next`, which is read once.
    pub next: ObjRef,
    /// The elements that it gave.
    pub made: IdlValues,
}

/// What waits for a value on the way from an object to a sequence.
#[derive(Drop)]
pub enum SequenceWait {
    /// It is what `@iterator` of the object is.
    Method {
        /// The type of the elements.
        element: IdlType,
        /// The object.
        obj: ObjRef,
    },
    /// It is what that method gave.
    Iterator {
        /// The type of the elements.
        element: IdlType,
    },
    /// It is what `next` of the iterator is.
    Next {
        /// The type of the elements.
        element: IdlType,
        /// The iterator.
        iterator: ObjRef,
    },
    /// It is what `next` gave.
    Turn(Box<Iteration>),
    /// It is what `done` of that is.
    Done {
        /// The turns.
        iteration: Box<Iteration>,
        /// What `next` gave.
        turn: ObjRef,
    },
    /// It is what `value` of that is.
    Element(Box<Iteration>),
}

/// The first move of a value's conversion to a sequence of elements of a type.
///
/// # Errors
///
/// `AllocError` where there is no memory.
pub(crate) fn to_sequence(
    alloc: Global,
    element: &IdlType,
    value: Value,
) -> Result<Move, AllocError>
    ensures dialog { IfOk result (λ m. (list : DefsTerm) → move_dialog list m ≡ to_sequence (type_term element.now) value) }
    ensures weight { IfOk result (λ m. (list : DefsTerm) → weight list m ≡ 0) }
{
    match value {
        Value::Obj(obj) => {
            let element = element.copy(alloc)?;
            Ok(Move::Asks(Asking {
                ask: Ask::Get {
                    obj,
                    key: Key::Sym(ITERATOR),
                },
                wait: Wait::Value(ValueWait::Sequence(SequenceWait::Method { element, obj })),
            }))
        }
        _ => Ok(throws(Code::NotObject)),
    }
}

/// The move after a value that was waited for.
///
/// # Errors
///
/// `AllocError` where there is no memory.
pub(crate) fn with_value(
    alloc: Global,
    wait: SequenceWait,
    value: Value,
) -> Result<Move, AllocError>
    ensures { IfOk result (λ m. (list : DefsTerm) → move_dialog list m ≡ sequence_to wait value) }
{
    match wait {
        SequenceWait::Method { element, obj } => Ok(found_method(element, obj, value)),
        SequenceWait::Iterator { element } => with_iterator(alloc, element, value),
        SequenceWait::Next { element, iterator } => with_next(alloc, element, iterator, value),
        SequenceWait::Turn(iteration) => turn_given(alloc, iteration, value),
        SequenceWait::Done { iteration, turn } => told_done(alloc, iteration, turn, value),
        SequenceWait::Element(iteration) => with_element(alloc, iteration, value),
    }
}

/// The move with what `@iterator` of an object is.
fn found_method(element: IdlType, obj: ObjRef, value: Value) -> Move
    ensures { (list : DefsTerm) → move_dialog list result ≡ found_iterator_method (type_term element) obj value }
{
    match value {
        Value::Undefined | Value::Null => throws(Code::NotIterable),
        Value::Obj(method) => match method.shape {
            Shape::Callable => Move::Goes(Job::SequenceFrom(Iterable {
                element,
                obj,
                method,
            })),
            Shape::Plain | Shape::Platform(_) => throws(Code::NotCallable),
        },
        _ => throws(Code::NotCallable),
    }
}

/// The first move from an object and its method `@iterator`, which it calls.
pub(crate) fn sequence_from(alloc: Global, iterable: Iterable) -> Move
    ensures dialog { (list : DefsTerm) → move_dialog list result ≡ sequence_from (type_term iterable.element) iterable.obj iterable.method }
    ensures weight { (list : DefsTerm) → weight list result ≡ 0 }
{
    let Iterable {
        element,
        obj,
        method,
    } = iterable;
    Move::Asks(Asking {
        ask: Ask::Call {
            f: method,
            this: Value::Obj(obj),
            args: Values::new(alloc),
        },
        wait: Wait::Value(ValueWait::Sequence(SequenceWait::Iterator { element })),
    })
}

/// The move with what the method `@iterator` gave: its method `next` is read once.
fn with_iterator(alloc: Global, element: IdlType, value: Value) -> Result<Move, AllocError>
    ensures { IfOk result (λ m. (list : DefsTerm) → move_dialog list m ≡ with_iterator (type_term element) value) }
{
    match value {
        Value::Obj(iterator) => {
            let key = Key::Name(Units::of_ascii(alloc, "next")?);
            Ok(Move::Asks(Asking {
                ask: Ask::Get { obj: iterator, key },
                wait: Wait::Value(ValueWait::Sequence(SequenceWait::Next { element, iterator })),
            }))
        }
        _ => Ok(throws(Code::Iterator)),
    }
}

/// The move with what `next` of an iterator is.
fn with_next(
    alloc: Global,
    element: IdlType,
    iterator: ObjRef,
    value: Value,
) -> Result<Move, AllocError>
    ensures { IfOk result (λ m. (list : DefsTerm) → move_dialog list m ≡ with_next (type_term element) iterator value) }
{
    match value {
        Value::Obj(next) => match next.shape {
            Shape::Callable => first_turn(alloc, element, iterator, next),
            Shape::Plain | Shape::Platform(_) => Ok(throws(Code::NotCallable)),
        },
        _ => Ok(throws(Code::NotCallable)),
    }
}

/// The move to the first turn of an iterator.
fn first_turn(
    alloc: Global,
    element: IdlType,
    iterator: ObjRef,
    next: ObjRef,
) -> Result<Move, AllocError>
    ensures { IfOk result (λ m. (list : DefsTerm) → move_dialog list m ≡ Steps (Turns (type_term element) iterator next []) End) }
{
    let iteration = Iteration {
        element,
        iterator,
        next,
        made: IdlValues::new(alloc),
    };
    Ok(Move::Goes(Job::Turns(Box::new(alloc, iteration)?)))
}

/// The first move of a turn: it calls `next`.
pub(crate) fn turns(alloc: Global, iteration: Box<Iteration>) -> Move
    ensures dialog { (list : DefsTerm) → move_dialog list result ≡ turns (type_term iteration.value.element) iteration.value.iterator iteration.value.next (idl_terms iteration.value.made) }
    ensures weight { (list : DefsTerm) → weight list result ≡ 0 }
{
    Move::Asks(Asking {
        ask: Ask::Call {
            f: iteration.next,
            this: Value::Obj(iteration.iterator),
            args: Values::new(alloc),
        },
        wait: Wait::Value(ValueWait::Sequence(SequenceWait::Turn(iteration))),
    })
}

/// The move with what `next` gave.
fn turn_given(alloc: Global, iteration: Box<Iteration>, value: Value) -> Result<Move, AllocError>
    ensures { IfOk result (λ m. (list : DefsTerm) → move_dialog list m ≡ turn_given (type_term iteration.value.element) iteration.value.iterator iteration.value.next (idl_terms iteration.value.made) value) }
{
    match value {
        Value::Obj(turn) => {
            let key = Key::Name(Units::of_ascii(alloc, "done")?);
            Ok(Move::Asks(Asking {
                ask: Ask::Get { obj: turn, key },
                wait: Wait::Value(ValueWait::Sequence(SequenceWait::Done { iteration, turn })),
            }))
        }
        _ => Ok(throws(Code::Result)),
    }
}

/// The move with what `done` of a turn is: the sequence, or the turn's value is read.
fn told_done(
    alloc: Global,
    iteration: Box<Iteration>,
    turn: ObjRef,
    is_done: Value,
) -> Result<Move, AllocError>
    ensures { IfOk result (λ m. (list : DefsTerm) → move_dialog list m ≡ told_done (type_term iteration.value.element) iteration.value.iterator iteration.value.next (idl_terms iteration.value.made) turn is_done) }
{
    if truth(&is_done) {
        Ok(finished(Box::into_inner(iteration)))
    } else {
        let key = Key::Name(Units::of_ascii(alloc, "value")?);
        Ok(Move::Asks(Asking {
            ask: Ask::Get { obj: turn, key },
            wait: Wait::Value(ValueWait::Sequence(SequenceWait::Element(iteration))),
        }))
    }
}

/// The end with a sequence.
fn finished(iteration: Iteration) -> Move
    ensures { (list : DefsTerm) → move_dialog list result ≡ gives (SequenceValue (packed_values (idl_terms iteration.made))) }
{
    gives(IdlValue::List(iteration.made))
}

/// The move with a turn's value, which becomes the next element.
fn with_element(alloc: Global, iteration: Box<Iteration>, value: Value) -> Result<Move, AllocError>
    ensures { IfOk result (λ m. (list : DefsTerm) → move_dialog list m ≡ element (type_term iteration.value.element) iteration.value.iterator iteration.value.next (idl_terms iteration.value.made) value) }
{
    let ty = iteration.element.copy(alloc)?;
    Ok(Move::Steps(
        Frame::Idl(IdlFrame::Element(iteration)),
        Job::Convert { ty, value },
    ))
}

/// The move after an element: the next turn.
///
/// # Errors
///
/// `AllocError` where there is no memory.
pub(crate) fn after_element(iteration: Box<Iteration>, value: IdlValue) -> Result<Move, AllocError>
    ensures dialog { IfOk result (λ m. (list : DefsTerm) → move_dialog list m ≡ idl_to list (IdlFrame.Element iteration) (idl_term value)) }
    ensures weight { IfOk result (λ m. (list : DefsTerm) → weight list m < idl_frame_load list (IdlFrame.Element iteration)) }
{
    let mut iteration = iteration;
    iteration.made.push(value)?;
    Ok(Move::Goes(Job::Turns(iteration)))
}

/// The type of the elements of the first sequence type among those that a type is flattened to.
///
/// A type of a list of definitions nests at most 16 levels, which bounds the recursion.
#[cycle(element)]
pub(crate) fn element_within(ty: &IdlType) -> Option<&IdlType>
    ensures { option_map (λ t. type_term t.now) result ≡ element_among (flattened_member (type_term ty.now)) }
{
    match ty {
        IdlType::Seq(element) => Some(element),
        IdlType::Nullable(inner) => element_within(inner),
        IdlType::Union(members) => element_within_members(members),
        _ => None,
    }
}

/// The same of the members of a union.
#[cycle(element)]
fn element_within_members(members: &IdlTypes) -> Option<&IdlType>
    ensures { option_map (λ t. type_term t.now) result ≡ element_among (flattened_members (packed (type_terms members.now))) }
{
    for member in members.as_slice() {
        if let Some(element) = element_within(member) {
            return Some(element);
        }
    }
    None
}
