//! Actions on properties, done.

ghost use Rattle.std.specs.Prelude.{◌≡◌, ◌∷◌, [], IfOk, OnOk};
ghost use Rattle.widl_script_tree.specs.Tables.{Tables};
ghost use Rattle.widl_store.specs.Objects.{IsLive};
ghost use Rattle.widl_runs.specs.Jobs.{Program};
ghost use Rattle.widl_runs.specs.Members.{define_done, delete_done, put_done};
ghost use Rattle.widl_engine.specs.Frames.{move_of};
ghost use Rattle.widl_engine.specs.Place.{Performed};
ghost use Rattle.widl_engine.specs.Shown.{IsDefineAnswer, IsPutAnswer, shown};

use crate::calls::calls;
use crate::contexts::Place;
use crate::due::Due;
use crate::errors::fails;
use crate::frames::{Frame, ValueFrame};
use crate::moves::{Move, ends, gives, reaches};
use std::alloc::{AllocError, Global};
use widl_store::{DefineFault, Found, NotConfigurable, Prop, Put, PutFault, Store};
use widl_text::Key;
use widl_trace::Code;
use widl_value::{ObjRef, Value, Values};

/// The end of the profile of the length of an array.
const LENGTH_END: u8 = 2;

/// A property that was found is read.
fn found(alloc: Global, obj: ObjRef, found: Found<'_>) -> Result<Move, AllocError>
    ensures { IfOk result (λ m. (p : Program) (s : Tables) → move_of p s m ≡ shown obj found.entry) }
{
    match found {
        Found::Held(value) => Ok(gives(value.copy()?)),
        Found::Getter(getter) => {
            let args = Values::new(alloc);
            let call = calls(alloc, Value::Obj(getter), Value::Obj(obj), args)?;
            Ok(Move::Goes(call))
        }
        Found::NoGetter => Ok(ends()),
        Found::Nothing => Ok(ends()),
    }
}

/// A property is found.
pub(crate) fn find(
    alloc: Global,
    store: &Store,
    place: &Place,
    obj: ObjRef,
    key: Key,
) -> Result<Move, AllocError>
    requires { IsLive store.now.objects obj }
    ensures { IfOk result (λ m. (p : Program) (s : Tables) → Performed p s (Due.Find obj key) store.now place.now store.now place.now m) }
{
    found(alloc, obj, store.find(obj, &key))
}

/// One value.
fn only(alloc: Global, value: Value) -> Result<Values, AllocError>
    ensures { IfOk result (λ vs. vs ≡ value ∷ []) }
{
    let mut values = Values::new(alloc);
    values.push(value)?;
    Ok(values)
}

/// What a put answers.
fn put_done(alloc: Global, obj: ObjRef, answer: Result<Put, PutFault>) -> Result<Move, AllocError>
    ensures some { OnOk result (IsPutAnswer answer) }
    ensures next { IfOk result (λ m. (p : Program) (s : Tables) → move_of p s m ≡ put_done obj answer) }
{
    match answer {
        Ok(Put::Done) => Ok(ends()),
        Ok(Put::Setter(setter, value)) => {
            let args = only(alloc, value)?;
            let call = calls(alloc, Value::Obj(setter), Value::Obj(obj), args)?;
            Ok(Move::Steps(Frame::Value(ValueFrame::Drops), call))
        }
        Err(PutFault::ReadOnly(_flags)) => Ok(fails(Code::ReadOnly)),
        Err(PutFault::NoSetter) => Ok(fails(Code::ReadOnly)),
        Err(PutFault::Length) => Ok(reaches(LENGTH_END)),
        Err(PutFault::Memory) => Err(AllocError),
    }
}

/// A property is set.
pub(crate) fn put(
    alloc: Global,
    store: &mut Store,
    place: &Place,
    obj: ObjRef,
    key: Key,
    value: Value,
) -> Result<Move, AllocError>
    requires { IsLive store.old.objects obj }
    ensures { IfOk result (λ m. (p : Program) (s : Tables) → Performed p s (Due.Put obj key value) store.old place.now store.new place.now m) }
{
    let answer = store.put(obj, key, value);
    put_done(alloc, obj, answer)
}

/// What a definition answers.
fn define_done(answer: Result<(), DefineFault>) -> Result<Move, AllocError>
    ensures some { OnOk result (IsDefineAnswer answer) }
    ensures next { IfOk result (λ m. (p : Program) (s : Tables) → move_of p s m ≡ define_done answer) }
{
    match answer {
        Ok(()) => Ok(ends()),
        Err(DefineFault::NotConfigurable(_flags)) => Ok(fails(Code::NotConfigurable)),
        Err(DefineFault::Length) => Ok(reaches(LENGTH_END)),
        Err(DefineFault::Memory) => Err(AllocError),
    }
}

/// A property is defined.
pub(crate) fn define(
    store: &mut Store,
    place: &Place,
    obj: ObjRef,
    key: Key,
    prop: Prop,
) -> Result<Move, AllocError>
    requires { IsLive store.old.objects obj }
    ensures { IfOk result (λ m. (p : Program) (s : Tables) → Performed p s (Due.Define obj key prop) store.old place.now store.new place.now m) }
{
    let answer = store.define(obj, key, prop);
    define_done(answer)
}

/// What a deletion answers.
fn delete_done(answer: Result<(), NotConfigurable>) -> Move
    ensures { (p : Program) (s : Tables) → move_of p s result ≡ delete_done answer }
{
    match answer {
        Ok(()) => ends(),
        Err(_fault) => fails(Code::NotConfigurable),
    }
}

/// A property is deleted.
pub(crate) fn delete(store: &mut Store, place: &Place, obj: ObjRef, key: Key) -> Move
    requires { IsLive store.old.objects obj }
    ensures { (p : Program) (s : Tables) → Performed p s (Due.Delete obj key) store.old place.now store.new place.now result }
{
    let answer = store.delete(obj, &key);
    delete_done(answer)
}
