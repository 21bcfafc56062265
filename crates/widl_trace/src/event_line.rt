//! The lines of events.

ghost use Rattle.std.specs.Prelude.{◌≡◌, ◌++◌, ◌≤◌, IfOk, IfSome, IsAscii, codes, decimal, length, SomeIff};
ghost use Rattle.widl_idl.specs.DefinitionTerms.{defs_term};
ghost use Rattle.widl_value.specs.IdlTerms.{idl_terms};
ghost use Rattle.widl_trace.specs.CalleeTexts.{callee_text};
ghost use Rattle.widl_trace.specs.Codes.{code_text};
ghost use Rattle.widl_trace.specs.Drafts.{Adds};
ghost use Rattle.widl_trace.specs.EventLines.{arguments_text, idl_arguments_text, line_of};
ghost use Rattle.widl_trace.specs.EventTerms.{event_term};
ghost use Rattle.widl_trace.specs.ValueTexts.{key_text, object_text, value_text};

use crate::callee_text::push_callee;
use crate::code::Code;
use crate::cut::Cut;
use crate::draft::Draft;
use crate::event::Event;
use crate::idl_value_text::push_idl_values;
use crate::value_text::{push_decimal, push_key, push_object, push_value, push_values};
use crate::whole::whole;
use std::alloc::{AllocError, Global};
use widl_idl::{Callee, Defs};
use widl_overload::Accepted;
use widl_sink::Line;
use widl_text::Key;
use widl_value::{IdlValues, ObjRef, Value};

/// The line of an event, without the line feed that ends it (this program's own).
///
/// # Errors
///
/// `AllocError` where there is no memory.
#[tactic(auto, using(crate::proofs::AsciiLines::line_is_ascii))]
pub fn line(alloc: Global, list: &Accepted, event: &Event) -> Result<Line, AllocError>
    ensures ascii { IfOk result IsAscii }
    ensures text { IfOk result (λ line. line ≡ line_of (defs_term list.now.defs) (event_term event.now)) }
{
    whole_line(alloc, list.defs(), event)
}

/// The line of an event, if it has at most so many bytes. No more of a longer one is made than these, so
/// that a long line costs no more than what can be paid for.
///
/// # Errors
///
/// `AllocError` where there is no memory.
#[tactic(auto, using(crate::proofs::AsciiLines::line_is_ascii))]
pub fn line_within(
    alloc: Global,
    list: &Accepted,
    event: &Event,
    most: usize,
) -> Result<Option<Line>, AllocError>
    ensures ascii { IfOk result (λ line. IfSome line IsAscii) }
    ensures text { IfOk result (λ line. SomeIff line (length (line_of (defs_term list.now.defs) (event_term event.now)) ≤ most) (line_of (defs_term list.now.defs) (event_term event.now))) }
{
    short_line(alloc, list.defs(), event, most)
}

/// The line of an event over a list of definitions.
pub fn whole_line(alloc: Global, defs: &Defs, event: &Event) -> Result<Line, AllocError>
    ensures { IfOk result (λ line. line ≡ line_of (defs_term defs.now) (event_term event.now)) }
{
    let mut draft = Draft::new(alloc, usize::MAX)?;
    let written = push_event(&mut draft, defs, event);
    let bytes = whole(draft, written)?;
    Ok(Line::new(bytes))
}

/// The line of an event over a list of definitions, if it has at most so many bytes.
#[tactic(auto, unfolding(crate::specs::Drafts::least))]
pub fn short_line(
    alloc: Global,
    defs: &Defs,
    event: &Event,
    most: usize,
) -> Result<Option<Line>, AllocError>
    ensures { IfOk result (λ line. SomeIff line (length (line_of (defs_term defs.now) (event_term event.now)) ≤ most) (line_of (defs_term defs.now) (event_term event.now))) }
{
    let mut draft = Draft::new(alloc, most)?;
    match push_event(&mut draft, defs, event) {
        Ok(()) => Ok(Some(Line::new(draft.bytes))),
        Err(Cut::TooLong) => Ok(None),
        Err(Cut::Memory) => Err(AllocError),
    }
}

/// Adds the line of an event.
#[tactic(auto, unfolding(crate::specs::EventLines::line_of))]
fn push_event(draft: &mut Draft, defs: &Defs, event: &Event) -> Result<(), Cut>
    ensures { Adds draft.old draft.new (line_of (defs_term defs.now) (event_term event.now)) result }
{
    match event {
        Event::Get { obj, key } => push_keyed(draft, b"get ", *obj, key),
        Event::Keys { obj } => push_of_object(draft, b"keys ", *obj),
        Event::Own { obj, key } => push_keyed(draft, b"own ", *obj, key),
        Event::Call { f, this, args } => push_call(draft, *f, this, args.as_slice()),
        Event::New { f, args } => push_construction(draft, *f, args.as_slice()),
        Event::Ret(value) => push_of_value(draft, b"ret ", value),
        Event::Thr(value) => push_of_value(draft, b"thr ", value),
        Event::Op {
            callee,
            overload,
            values,
        } => push_steps(draft, defs, *callee, *overload, values),
        Event::Error { obj, code } => push_error(draft, *obj, *code),
        Event::Fulfilled { promise, value } => {
            push_settled(draft, *promise, b" fulfilled ", value)
        }
        Event::Rejected { promise, value } => push_settled(draft, *promise, b" rejected ", value),
        Event::Waits {
            promise,
            on,
            method,
        } => push_waiting(draft, b"promise ", *promise, b" waits ", *on, *method),
        Event::Show(value) => push_of_value(draft, b"show ", value),
        Event::Job {
            promise,
            on,
            method,
        } => push_waiting(draft, b"job ", *promise, b" ", *on, *method),
        Event::Done => draft.push(b"done"),
        Event::Uncaught(value) => push_of_value(draft, b"uncaught ", value),
        Event::StopBudget => draft.push(b"stop budget"),
        Event::StopDepth => draft.push(b"stop depth"),
        Event::StopProfile(end) => push_of_number(draft, b"stop profile ", *end as u32),
    }
}

/// Adds a word and an object.
fn push_of_object(draft: &mut Draft, word: &[u8], obj: ObjRef) -> Result<(), Cut>
    ensures { Adds draft.old draft.new (word.now ++ object_text obj) result }
{
    draft.push(word)?;
    push_object(draft, obj)
}

/// Adds a word and a value.
fn push_of_value(draft: &mut Draft, word: &[u8], value: &Value) -> Result<(), Cut>
    ensures { Adds draft.old draft.new (word.now ++ value_text value.now) result }
{
    draft.push(word)?;
    push_value(draft, value)
}

/// Adds a word, an object and a key.
fn push_keyed(draft: &mut Draft, word: &[u8], obj: ObjRef, key: &Key) -> Result<(), Cut>
    ensures { Adds draft.old draft.new (word.now ++ object_text obj ++ codes " " ++ key_text key.now) result }
{
    push_of_object(draft, word, obj)?;
    draft.push(b" ")?;
    push_key(draft, key)
}

/// Adds a call.
fn push_call(draft: &mut Draft, f: ObjRef, this: &Value, args: &[Value]) -> Result<(), Cut>
    ensures { Adds draft.old draft.new (codes "call " ++ object_text f ++ codes " this " ++ value_text this.now ++ arguments_text args.now) result }
{
    push_of_object(draft, b"call ", f)?;
    draft.push(b" this ")?;
    push_value(draft, this)?;
    push_arguments(draft, args)
}

/// Adds a construction.
fn push_construction(draft: &mut Draft, f: ObjRef, args: &[Value]) -> Result<(), Cut>
    ensures { Adds draft.old draft.new (codes "new " ++ object_text f ++ arguments_text args.now) result }
{
    push_of_object(draft, b"new ", f)?;
    push_arguments(draft, args)
}

/// Adds the arguments of a call.
fn push_arguments(draft: &mut Draft, args: &[Value]) -> Result<(), Cut>
    ensures { Adds draft.old draft.new (arguments_text args.now) result }
{
    draft.push(b" (")?;
    push_values(draft, args)?;
    draft.push(b")")
}

/// Adds the begin of the steps of a callee.
fn push_steps(
    draft: &mut Draft,
    defs: &Defs,
    callee: Callee,
    overload: Option<u32>,
    values: &IdlValues,
) -> Result<(), Cut>
    ensures { Adds draft.old draft.new (codes "op " ++ callee_text (defs_term defs.now) callee overload ++ idl_arguments_text (defs_term defs.now) (idl_terms values.now)) result }
{
    draft.push(b"op ")?;
    push_callee(draft, defs, callee, overload)?;
    draft.push(b" (")?;
    push_idl_values(draft, defs, values)?;
    draft.push(b")")
}

/// Adds an error object and its code.
fn push_error(draft: &mut Draft, obj: ObjRef, code: Code) -> Result<(), Cut>
    ensures { Adds draft.old draft.new (codes "error " ++ object_text obj ++ codes " " ++ code_text code) result }
{
    push_of_object(draft, b"error ", obj)?;
    draft.push(b" ")?;
    draft.push(code.text())
}

/// Adds a promise that was settled.
fn push_settled(draft: &mut Draft, promise: ObjRef, word: &[u8], value: &Value) -> Result<(), Cut>
    ensures { Adds draft.old draft.new (codes "promise " ++ object_text promise ++ word.now ++ value_text value.now) result }
{
    push_of_object(draft, b"promise ", promise)?;
    push_of_value(draft, word, value)
}

/// Adds a promise, the object that it waits for and the method of that object.
fn push_waiting(
    draft: &mut Draft,
    word: &[u8],
    promise: ObjRef,
    second: &[u8],
    on: ObjRef,
    method: ObjRef,
) -> Result<(), Cut>
    ensures { Adds draft.old draft.new (word.now ++ object_text promise ++ second.now ++ object_text on ++ codes " " ++ object_text method) result }
{
    push_of_object(draft, word, promise)?;
    push_of_object(draft, second, on)?;
    push_of_object(draft, b" ", method)
}

/// Adds a word and a number.
fn push_of_number(draft: &mut Draft, word: &[u8], number: u32) -> Result<(), Cut>
    ensures { Adds draft.old draft.new (word.now ++ decimal number) result }
{
    draft.push(word)?;
    push_decimal(draft, number)
}
