//! The asks of conversations.

ghost use Rattle.std.specs.Prelude.{◌≡◌, IfOk};
ghost use Rattle.widl_dialog.specs.Dialog.{End, Steps};
ghost use Rattle.widl_value.specs.declared.value.Value.TheVariants as values;
ghost use Rattle.widl_steps.specs.AskTerms.{ask_term, kind_of as the_kind_of};
ghost use Rattle.widl_runs.specs.Asks.{asks};
ghost use Rattle.widl_runs.specs.Jobs.{CallValue, Program};
ghost use Rattle.widl_script_tree.specs.Tables.{Tables};
ghost use Rattle.widl_engine.specs.AskKinds.{ask_kind_of};
ghost use Rattle.widl_engine.specs.Frames.{gets_by, keys_by, move_of, own_by};

use crate::calls::calls;
use crate::charges::{AfterLine, Charge, Unit};
use crate::due::Due;
use crate::moves::{Move, ends};
use crate::suspended::AskKind;
use std::alloc::{AllocError, Global};
use widl_steps::{Ask, Change, Look, New};
use widl_trace::Event;
use widl_value::{ObjRef, Shape, Value, Values};

/// A line, and what comes after it.
fn writes(event: Event, then: AfterLine) -> Move
    ensures { result ≡ Move.Pays (Charge.Line event then) }
{
    Move::Pays(Charge::Line { event, then })
}

/// A unit, and what it is paid for.
fn pays(unit: Unit) -> Move
    ensures { result ≡ Move.Pays (Charge.Unit unit) }
{
    Move::Pays(Charge::Unit(unit))
}

/// An object is looked at.
fn looks(obj: ObjRef, what: Look) -> Move
    ensures { result ≡ Move.Acts (Due.Look obj what) }
{
    Move::Acts(Due::Look { obj, what })
}

/// A unit, and the object that it is paid for.
fn makes(new: New) -> Move
    ensures { result ≡ Move.Pays (Charge.Unit (Unit.New new)) }
{
    pays(Unit::New(new))
}

/// The inner part of an object is changed.
fn changes(obj: ObjRef, change: Change) -> Move
    ensures { result ≡ Move.Acts (Due.Change obj change) }
{
    Move::Acts(Due::Change { obj, change })
}

/// The property of a line is read.
pub(crate) fn gets(event: Event) -> Move
    ensures { (p : Program) (s : Tables) → move_of p s result ≡ gets_by event }
{
    match event {
        Event::Get { obj, key } => Move::Acts(Due::Find { obj, key }),
        _ => ends(),
    }
}

/// The keys of a line's object are listed.
pub(crate) fn finds_keys(event: Event) -> Move
    ensures { (p : Program) (s : Tables) → move_of p s result ≡ keys_by event }
{
    match event {
        Event::Keys { obj } => Move::Acts(Due::FindKeys(obj)),
        _ => ends(),
    }
}

/// The own property of a line is looked at.
pub(crate) fn finds_own(event: Event) -> Move
    ensures { (p : Program) (s : Tables) → move_of p s result ≡ own_by event }
{
    match event {
        Event::Own { obj, key } => Move::Acts(Due::FindOwn { obj, key }),
        _ => ends(),
    }
}

/// A function is called.
fn calls_function(alloc: Global, f: ObjRef, this: Value, args: Values) -> Result<Move, AllocError>
    ensures { IfOk result (λ m. (p : Program) (s : Tables) → move_of p s m ≡ Steps (CallValue (values.Obj f) this args) End) }
{
    Ok(Move::Goes(calls(alloc, Value::Obj(f), this, args)?))
}

/// The first move of an ask's work.
///
/// # Errors
///
/// `AllocError` where there is no memory.
fn begins(alloc: Global, ask: Ask) -> Result<Move, AllocError>
    ensures { IfOk result (λ m. (p : Program) (s : Tables) → move_of p s m ≡ asks (ask_term ask)) }
{
    match ask {
        Ask::Get { obj, key } => Ok(writes(Event::Get { obj, key }, AfterLine::Gets)),
        Ask::Call { f, this, args } => calls_function(alloc, f, this, args),
        Ask::Unit => Ok(pays(Unit::Asked)),
        Ask::Note(event) => Ok(writes(event, AfterLine::Shown)),
        Ask::OwnKeys(obj) => Ok(writes(Event::Keys { obj }, AfterLine::Keys)),
        Ask::Own { obj, key } => Ok(writes(Event::Own { obj, key }, AfterLine::Own)),
        Ask::Kind(obj) => Ok(looks(obj, Look::Kind)),
        Ask::Cursor(obj) => Ok(looks(obj, Look::Cursor)),
        Ask::NewArray(items) => Ok(makes(New::Array(items))),
        Ask::NewObject(entries) => Ok(makes(New::Object(entries))),
        Ask::NewArrayIterator(obj) => Ok(makes(New::ArrayIterator(obj))),
        Ask::SetCursor { obj, next, turn } => Ok(changes(obj, Change::Cursor { next, turn })),
    }
}

/// The kind of an ask.
pub(crate) fn kind_of(ask: &Ask) -> AskKind
    ensures { ask_kind_of result ≡ the_kind_of (ask_term ask.now) }
{
    match ask {
        Ask::Get { .. } => AskKind::Get,
        Ask::Call { .. } => AskKind::Call,
        Ask::Unit => AskKind::Unit,
        Ask::Note(_) => AskKind::Note,
        Ask::OwnKeys(_) => AskKind::OwnKeys,
        Ask::Own { .. } => AskKind::Own,
        Ask::Kind(_) => AskKind::Look(Look::Kind),
        Ask::Cursor(_) => AskKind::Look(Look::Cursor),
        Ask::NewArray(_) => AskKind::New(Shape::Plain),
        Ask::NewObject(_) => AskKind::New(Shape::Plain),
        Ask::NewArrayIterator(_) => AskKind::New(Shape::Plain),
        Ask::SetCursor { .. } => AskKind::Change,
    }
}

/// The first move of the work of an ask in a box.
///
/// # Errors
///
/// `AllocError` where there is no memory.
pub(crate) fn asks(alloc: Global, ask: Box<Ask>) -> Result<Move, AllocError>
    ensures { IfOk result (λ m. (p : Program) (s : Tables) → move_of p s m ≡ asks (ask_term ask.value)) }
{
    begins(alloc, Box::into_inner(ask))
}
