//! Actions that take no unit, done.

ghost use Rattle.std.specs.Prelude.{◌≡◌, ◌∷◌, ◌<◌, ◌^◌, ◌-◌, [], length, nat_lt, Bool, IfOk, IfSome, IfNone, OnOk, ◌++◌, Ok};
ghost use Rattle.widl_text.specs.Limits.{most_open_calls};
ghost use Rattle.widl_script_tree.specs.Tables.{Tables};
ghost use Rattle.widl_store.specs.Objects.{IsLive, StoreState};
ghost use Rattle.widl_runs.specs.Actions.{body_at, IsDone, IsObject};
ghost use Rattle.widl_runs.specs.Calls.{construct_body};
ghost use Rattle.widl_runs.specs.Jobs.{Program};
ghost use Rattle.widl_runs.specs.Worlds.{this_value};
ghost use Rattle.widl_runs.specs.Members.{define_done, delete_done, put_done, read_value};
ghost use Rattle.widl_engine.specs.Frames.{after_bind, after_add, body_of, move_of};
ghost use Rattle.widl_engine.specs.Place.{Performed, Performs, contexts_in};
ghost use Rattle.widl_engine.specs.ReadOver.{IsReadOver};

use crate::charges::{AfterLine, Charge};
use crate::contexts::{Context, Place};
use crate::due::{Body, Due, Made, Then};
use crate::errors::fails;
use crate::globals::{bind, read};
use crate::jobs::Job;
use crate::moves::{Move, ends, gives};
use std::alloc::AllocError;
use widl_runs::Stop;
use widl_script_tree::Script;
use widl_store::{Builtin, Inner, Store};
use widl_text::limits::MOST_OPEN_CALLS;
use widl_trace::{Code, Event};
use widl_value::{ObjRef, Value, Values};

/// What became of an action.
#[derive(Drop)]
pub enum Acted {
    /// It was done, and this comes next.
    Went(Move),
    /// It stopped the run.
    Stopped(Stop),
    /// There was no memory for it.
    Memory,
}

/// Whether one more call may be open.
#[inline(always)]
fn has_room(place: &Place) -> bool
    ensures { (s : Tables) → result ≡ nat_lt (length (contexts_in s place.now)) most_open_calls }
{
    match place.here {
        None => true,
        Some(_) => place.outer.len() + 1 < MOST_OPEN_CALLS,
    }
}

/// The line of a call.
#[inline(always)]
fn call_line(f: ObjRef, this: Value, args: Values, body: Body) -> Move
    ensures { result ≡ Move.Pays (Charge.Line (Event.Call f this args) (AfterLine.Enters body)) }
{
    Move::Pays(Charge::Line {
        event: Event::Call { f, this, args },
        then: AfterLine::Enters(body),
    })
}

/// The line of a construction.
#[inline(always)]
fn new_line(f: ObjRef, args: Values) -> Move
    ensures { result ≡ Move.Pays (Charge.Line (Event.New f args) AfterLine.Constructs) }
{
    Move::Pays(Charge::Line {
        event: Event::New { f, args },
        then: AfterLine::Constructs,
    })
}

/// What the call of an object does.
#[inline(always)]
pub(crate) fn body_of(store: &Store, f: ObjRef) -> Body
    requires { IsLive store.now.objects f }
    ensures { body_of result ≡ body_at store.now.objects f }
{
    match store.inner(f) {
        Inner::Script(number) => Body::Script(*number),
        Inner::Builtin(function) => Body::Builtin(*function),
        Inner::Interface { iface, .. } => Body::Builtin(Builtin::InterfaceObject(*iface)),
        _ => Body::Nothing,
    }
}

/// The body of a call is found.
#[inline(always)]
pub(crate) fn find_body(store: &Store, place: &Place, f: ObjRef, this: Value, args: Values) -> Move
    requires { IsLive store.now.objects f }
    ensures { (p : Program) (s : Tables) → Performed p s (Due.FindBody f this args) store.now place.now store.now place.now result }
{
    let body = body_of(store, f);
    Move::Acts(Due::Depth {
        f,
        this,
        args,
        body,
    })
}

/// What an object constructs.
#[inline(always)]
fn constructor_move(f: ObjRef, args: Values, body: Body) -> Move
    ensures { (p : Program) (s : Tables) → move_of p s result ≡ construct_body f args (body_of body) }
{
    match body {
        Body::Builtin(Builtin::InterfaceObject(_iface)) => {
            Move::Acts(Due::DepthOfNew { f, args })
        }
        _ => fails(Code::NoConstructor),
    }
}

/// What an object constructs is found.
#[inline(always)]
pub(crate) fn find_constructor(store: &Store, place: &Place, f: ObjRef, args: Values) -> Move
    requires { IsLive store.now.objects f }
    ensures { (p : Program) (s : Tables) → Performed p s (Due.FindConstructor f args) store.now place.now store.now place.now result }
{
    constructor_move(f, args, body_of(store, f))
}

/// The value of `this`.
#[inline(always)]
fn this_value(place: &Place) -> Result<Value, AllocError>
    ensures { IfOk result (λ v. (s : Tables) → v ≡ this_value (contexts_in s place.now)) }
{
    match &place.here {
        None => Ok(Value::Undefined),
        Some(context) => context.this.copy(),
    }
}

/// `this` is read.
#[inline(always)]
pub(crate) fn read_this(store: &Store, place: &Place) -> Result<Move, AllocError>
    ensures { IfOk result (λ m. (p : Program) (s : Tables) → Performed p s Due.ReadThis store.now place.now store.now place.now m) }
{
    Ok(gives(this_value(place)?))
}

/// A name is read.
#[inline(always)]
pub(crate) fn read_name(
    script: &Script,
    store: &Store,
    place: &Place,
    name: u32,
) -> Result<Move, AllocError>
    ensures { IfOk result (λ m. (p : Program) → IsReadOver p.list script.now → Performed p script.now (Due.ReadName name) store.now place.now store.now place.now m) }
{
    Ok(gives(read(script, store, place, name)?))
}

/// What comes after a name is bound.
#[inline(always)]
fn bound(script: &Script, then: Then) -> Move
    ensures { (p : Program) → move_of p script.now result ≡ after_bind script.now then IsDone }
{
    match then {
        Then::Ends => ends(),
        Then::Handles(row) => Move::Goes(Job::Statements(row)),
    }
}

/// A value is bound to a name.
#[inline(always)]
pub(crate) fn bind_name(
    script: &Script,
    store: &Store,
    place: &mut Place,
    name: u32,
    value: Value,
    then: Then,
) -> Result<Move, AllocError>
    ensures { IfOk result (λ m. (p : Program) → Performed p script.now (Due.Bind name value then) store.now place.old store.now place.new m) }
{
    bind(script, place, name, value)?;
    Ok(bound(script, then))
}

/// The next symbol is taken.
#[inline(always)]
pub(crate) fn take_symbol(store: &Store, place: &mut Place) -> Move
    requires { place.old.next_symbol < 2 ^ 32 - 1 }
    ensures { (p : Program) (s : Tables) → Performed p s Due.TakeSymbol store.now place.old store.now place.new result }
{
    let id = place.next_symbol;
    place.next_symbol = id + 1;
    gives(Value::Sym(id))
}

/// Whether one more call may be open, and then the call's line.
#[inline(always)]
pub(crate) fn deepen(
    store: &Store,
    place: &Place,
    f: ObjRef,
    this: Value,
    args: Values,
    body: Body,
) -> Acted
    ensures { (p : Program) (s : Tables) → Performs p s (Due.Depth f this args body) store.now place.now store.now place.now result }
{
    if has_room(place) {
        return Acted::Went(call_line(f, this, args, body));
    }
    Acted::Stopped(Stop::Depth)
}

/// Whether one more call may be open, and then the line of the construction.
#[inline(always)]
pub(crate) fn deepen_new(store: &Store, place: &Place, f: ObjRef, args: Values) -> Acted
    ensures { (p : Program) (s : Tables) → Performs p s (Due.DepthOfNew f args) store.now place.now store.now place.now result }
{
    if has_room(place) {
        return Acted::Went(new_line(f, args));
    }
    Acted::Stopped(Stop::Depth)
}

/// An end of the profile.
#[inline(always)]
pub(crate) fn reach(store: &Store, place: &Place, end: u8) -> Acted
    ensures { (p : Program) (s : Tables) → Performs p s (Due.Reach end) store.now place.now store.now place.now result }
{
    Acted::Stopped(Stop::Profile(end))
}

/// What a new object is for.
#[inline(always)]
pub(crate) fn made(then: Made, obj: ObjRef) -> Move
    ensures { (p : Program) (s : Tables) → move_of p s result ≡ after_add s then (IsObject obj) }
{
    match then {
        Made::Value => gives(Value::Obj(obj)),
        Made::Bound(name) => Move::Acts(Due::Bind {
            name,
            value: Value::Obj(obj),
            then: Then::Ends,
        }),
        Made::Error(code) => Move::Pays(Charge::Line {
            event: Event::Error { obj, code },
            then: AfterLine::Throws,
        }),
    }
}
