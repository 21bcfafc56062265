//! How each ask is told, and what is answered to it.
//!
//! What a read or a call gives is a value, or `throws` and a value. A kind is `is` and its name. Own keys are `keys` and
//! texts and symbols with commas between. An own property is `shown`, `hidden` or `absent`. A new object is `obj N`. How
//! far an iterator has come is `no iterator`, or `array N at I` and `idle`, `running` or `ended`: the object that it
//! iterates over, and the next index. A unit is taken, an event is told and an iterator is set without an answer.

ghost use Rattle.std.specs.Prelude.{IfOk};
ghost use Rattle.widl_steps.specs.AskTerms.{Fits, IsCompletion, IsNewObject, answer_term, ask_term};

use crate::fault::Fault;
use crate::values::{value_of, values_of};
use crate::words::Told;
use std::alloc::Global;
use std::fmt::{self, Display};
use widl_convert::{Answer, Ask, CursorState, KindName};
use widl_store::Turn;
use widl_text::Key;
use widl_value::{Flags, Keys, ObjRef, Shape, Value};

impl fmt::Display for Told<'_, Ask> {
    fn fmt<W: fmt::Write>(&self, f: &mut fmt::Formatter<W>) -> fmt::Result {
        match self.0 {
            Ask::Get { obj, key } => write!(f, "get {} {}", obj.id, Told(key)),
            Ask::Call {
                f: function,
                this,
                args,
            } => { write!(f, "call {} on {}{}", function.id, Told(this), Told(args)) }
            Ask::Kind(obj) => write!(f, "kind {}", obj.id),
            Ask::Unit => f.write_str("unit"),
            Ask::Note(event) => Told(event).fmt(f),
            Ask::OwnKeys(obj) => write!(f, "keys {}", obj.id),
            Ask::Own { obj, key } => write!(f, "own {} {}", obj.id, Told(key)),
            Ask::NewArray(values) => write!(f, "array{}", Told(values)),
            Ask::NewObject(entries) => write!(f, "object{}", Told(entries)),
            Ask::NewArrayIterator(obj) => write!(f, "iterator {}", obj.id),
            Ask::Cursor(obj) => write!(f, "cursor {}", obj.id),
            Ask::SetCursor { obj, next, turn } => { write!(f, "set {} at {next} {turn:?}", obj.id) }
        }
    }
}

/// Whether rows have no answer to an ask.
pub fn is_done_at_once(ask: &Ask) -> bool {
    match ask {
        Ask::Unit => true,
        Ask::Note(_) => true,
        Ask::SetCursor {
            obj: _,
            next: _,
            turn: _,
        } => true,
        _ => false,
    }
}

/// The answer to an ask that a text says.
pub fn answer_to(alloc: Global, ask: &Ask, text: &str) -> Result<Answer, Fault>
    ensures { IfOk result (λ answer. Fits (ask_term ask.now) (answer_term answer)) }
{
    match ask {
        Ask::Get { obj: _, key: _ } => completion_of(alloc, text),
        Ask::Call {
            f: _,
            this: _,
            args: _,
        } => completion_of(alloc, text),
        Ask::Kind(_) => Ok(Answer::Kind(kind_of(text)?)),
        Ask::OwnKeys(_) => Ok(Answer::Keys(keys_of(alloc, text)?)),
        Ask::Own { obj: _, key: _ } => Ok(Answer::Own(flags_of(text)?)),
        Ask::NewArray(_) => new_object_of(text),
        Ask::NewObject(_) => new_object_of(text),
        Ask::NewArrayIterator(_) => new_object_of(text),
        Ask::Cursor(_) => Ok(Answer::Cursor(cursor_of(text)?)),
        Ask::Unit => Ok(Answer::Done),
        Ask::Note(_) => Ok(Answer::Done),
        Ask::SetCursor {
            obj: _,
            next: _,
            turn: _,
        } => Ok(Answer::Done),
    }
}

/// The value that a read or a call gives or throws.
fn completion_of(alloc: Global, text: &str) -> Result<Answer, Fault>
    ensures { IfOk result (λ answer. IsCompletion (answer_term answer)) }
{
    match text.strip_prefix("throws ") {
        Some(value) => Ok(Answer::Thrown(value_of(alloc, value)?)),
        None => Ok(Answer::Normal(value_of(alloc, text)?)),
    }
}

/// The kind of an object.
fn kind_of(text: &str) -> Result<KindName, Fault> {
    match text {
        "is Array" => Ok(KindName::Array),
        "is Function" => Ok(KindName::Function),
        "is Error" => Ok(KindName::Error),
        "is Promise" => Ok(KindName::Promise),
        "is Other" => Ok(KindName::Other),
        _ => Err(Fault::Line("a kind is wanted")),
    }
}

/// The key that a value is.
fn key_of(value: &Value) -> Result<Key, Fault> {
    match value {
        Value::Str(units) => Ok(Key::Name(units.copy()?)),
        Value::Sym(id) => Ok(Key::Sym(*id)),
        _ => Err(Fault::Line("a key is a text or a symbol")),
    }
}

/// The own keys of an object.
fn keys_of(alloc: Global, text: &str) -> Result<Keys, Fault> {
    let Some(text) = text.strip_prefix("keys") else {
        return Err(Fault::Line("keys are wanted"));
    };
    let values = values_of(alloc, text.trim())?;
    let mut keys = Keys::new(alloc);
    for value in values.as_slice() {
        keys.push(key_of(value)?)?;
    }
    Ok(keys)
}

/// The flags of an own property, if it is there.
fn flags_of(text: &str) -> Result<Option<Flags>, Fault> {
    let enumerable = match text {
        "shown" => true,
        "hidden" => false,
        "absent" => return Ok(None),
        _ => return Err(Fault::Line("an own property is wanted")),
    };
    Ok(Some(Flags {
        writable: true,
        enumerable,
        configurable: true,
    }))
}

/// A new object.
fn new_object_of(text: &str) -> Result<Answer, Fault>
    ensures { IfOk result (λ answer. IsNewObject Shape.Plain (answer_term answer)) }
{
    match text.strip_prefix("obj ") {
        Some(number) => Ok(Answer::Normal(Value::Obj(ObjRef {
            id: number.parse::<u32>()?,
            shape: Shape::Plain,
        }))),
        None => Err(Fault::Line("a new object is wanted")),
    }
}

/// Whether a turn of an iterator is under way.
fn turn_of(text: &str) -> Result<Turn, Fault> {
    match text {
        "idle" => Ok(Turn::Idle),
        "running" => Ok(Turn::Running),
        "ended" => Ok(Turn::Ended),
        _ => Err(Fault::Line("idle, running or ended is wanted")),
    }
}

/// The state of an array iterator.
fn array_cursor_of(of: &str, state: &str) -> Result<CursorState, Fault> {
    let (next, turn) = state.split_once(' ').unwrap_or((state, ""));
    Ok(CursorState::Array {
        of: ObjRef {
            id: of.parse::<u32>()?,
            shape: Shape::Plain,
        },
        next: next.parse::<u64>()?,
        turn: turn_of(turn)?,
    })
}

/// How far an iterator has come.
fn cursor_of(text: &str) -> Result<Option<CursorState>, Fault> {
    if text == "no iterator" {
        return Ok(None);
    }
    let Some(text) = text.strip_prefix("array ") else {
        return Err(Fault::Line("an iterator is wanted"));
    };
    match text.split_once(" at ") {
        Some((of, state)) => Ok(Some(array_cursor_of(of, state)?)),
        None => Err(Fault::Line("an index is wanted")),
    }
}
