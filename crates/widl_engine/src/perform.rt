//! What an action that takes no unit does.

ghost use Rattle.std.specs.Prelude.{◌≡◌, ◌<◌, ◌^◌, ◌-◌, IfOk, length};
ghost use Rattle.widl_runs.specs.Jobs.{Program};
ghost use Rattle.widl_script_tree.specs.Tables.{Tables as ScriptTables, script_tree};
ghost use Rattle.widl_store.specs.Objects.{IsLive};
ghost use Rattle.widl_engine.specs.Added.{CanBeAdded, IsAdded};
ghost use Rattle.widl_runs.specs.Fitting.{HasPrototypes};
ghost use Rattle.widl_engine.specs.Fits.{Fits};
ghost use Rattle.widl_engine.specs.Frames.{new_of, program_of};
ghost use Rattle.widl_engine.specs.Place.{Performs};
ghost use Rattle.widl_engine.specs.ReadOver.{IsReadOver};

use crate::acts::{
    Acted, bind_name, deepen, deepen_new, find_body, find_constructor, made, reach, read_name,
    read_this, take_symbol,
};
use crate::changes::change_part;
use crate::contexts::Place;
use crate::due::{Due, Made, NewObject, Then};
use crate::entering::{enter, enter_builtin, leave};
use crate::looks::{find_keys, find_own, look};
use crate::moves::Move;
use crate::new_objects::add_asked;
use crate::objects::{add_error, add_function, add_ordinary};
use crate::properties::{define, delete, find, put};
use std::alloc::{AllocError, Global};
use widl_script_tree::Script;
use widl_store::{Builtin, Prop, Store};
use widl_tables::Tables;
use widl_text::Key;
use widl_value::{ObjRef, Value, Values};

/// Adds an object.
fn add_object(
    alloc: Global,
    script: &Script,
    store: &mut Store,
    new: NewObject,
) -> Result<ObjRef, AllocError>
    requires small { length store.old.objects < 2 ^ 32 - 1 }
    requires prototypes { HasPrototypes store.old.objects }
    requires can { CanBeAdded script.now store.old.objects new }
    ensures { IfOk result (λ o. IsAdded store.old store.new o (new_of script.now new)) }
{
    match new {
        NewObject::Ordinary(proto) => add_ordinary(store, proto),
        NewObject::Function(number) => add_function(alloc, script, store, number),
        NewObject::Error => add_error(store),
        NewObject::Asked(new) => add_asked(alloc, store, new),
    }
}

/// Adds an object for what it is for.
fn add(
    alloc: Global,
    script: &Script,
    store: &mut Store,
    place: &Place,
    new: NewObject,
    then: Made,
) -> Acted
    requires small { length store.old.objects < 2 ^ 32 - 1 }
    requires prototypes { HasPrototypes store.old.objects }
    requires can { CanBeAdded script.now store.old.objects new }
    ensures { (p : Program) → Performs p script.now (Due.Add new then) store.old place.now store.new place.now result }
{
    match add_object(alloc, script, store, new) {
        Ok(object) => Acted::Went(made(then, object)),
        Err(_) => Acted::Memory,
    }
}

// Each action that may lack memory has a function of its own: a function pays for the room of all its arms.

/// A function of the script is entered.
fn enters(
    alloc: Global,
    script: &Script,
    store: &Store,
    place: &mut Place,
    number: u32,
    this: Value,
    args: Values,
) -> Acted
    ensures { (p : Program) → p.script ≡ script_tree script.now → Performs p script.now (Due.Enter number this args) store.now place.old store.now place.new result }
{
    match enter(alloc, script, store, place, number, this, args) {
        Ok(next) => Acted::Went(next),
        Err(_) => Acted::Memory,
    }
}

/// A function is entered that isn't written in the script.
fn enters_builtin(
    alloc: Global,
    store: &Store,
    place: &mut Place,
    f: ObjRef,
    function: Builtin,
    this: Value,
    args: Values,
) -> Acted
    ensures { (p : Program) (s : ScriptTables) → Performs p s (Due.EnterBuiltin f function this args) store.now place.old store.now place.new result }
{
    match enter_builtin(alloc, store, place, f, function, this, args) {
        Ok(next) => Acted::Went(next),
        Err(_) => Acted::Memory,
    }
}

/// The value of `this` is read.
fn reads_this(store: &Store, place: &Place) -> Acted
    ensures { (p : Program) (s : ScriptTables) → Performs p s (Due.ReadThis) store.now place.now store.now place.now result }
{
    match read_this(store, place) {
        Ok(next) => Acted::Went(next),
        Err(_) => Acted::Memory,
    }
}

/// A name is read.
fn reads_name(script: &Script, store: &Store, place: &Place, name: u32) -> Acted
    ensures { (p : Program) → IsReadOver p.list script.now → Performs p script.now (Due.ReadName name) store.now place.now store.now place.now result }
{
    match read_name(script, store, place, name) {
        Ok(next) => Acted::Went(next),
        Err(_) => Acted::Memory,
    }
}

/// A value is bound to a name.
fn binds_name(
    script: &Script,
    store: &Store,
    place: &mut Place,
    name: u32,
    value: Value,
    then: Then,
) -> Acted
    ensures { (p : Program) → Performs p script.now (Due.Bind name value then) store.now place.old store.now place.new result }
{
    match bind_name(script, store, place, name, value, then) {
        Ok(next) => Acted::Went(next),
        Err(_) => Acted::Memory,
    }
}

/// A property is found.
fn finds(alloc: Global, store: &Store, place: &Place, obj: ObjRef, key: Key) -> Acted
    requires { IsLive store.now.objects obj }
    ensures { (p : Program) (s : ScriptTables) → Performs p s (Due.Find obj key) store.now place.now store.now place.now result }
{
    match find(alloc, store, place, obj, key) {
        Ok(next) => Acted::Went(next),
        Err(_) => Acted::Memory,
    }
}

/// A property is set.
fn puts(
    alloc: Global,
    store: &mut Store,
    place: &Place,
    obj: ObjRef,
    key: Key,
    value: Value,
) -> Acted
    requires { IsLive store.old.objects obj }
    ensures { (p : Program) (s : ScriptTables) → Performs p s (Due.Put obj key value) store.old place.now store.new place.now result }
{
    match put(alloc, store, place, obj, key, value) {
        Ok(next) => Acted::Went(next),
        Err(_) => Acted::Memory,
    }
}

/// A property is defined.
fn defines(store: &mut Store, place: &Place, obj: ObjRef, key: Key, prop: Prop) -> Acted
    requires { IsLive store.old.objects obj }
    ensures { (p : Program) (s : ScriptTables) → Performs p s (Due.Define obj key prop) store.old place.now store.new place.now result }
{
    match define(store, place, obj, key, prop) {
        Ok(next) => Acted::Went(next),
        Err(_) => Acted::Memory,
    }
}

/// The own keys of an object are found.
fn lists_keys(store: &Store, place: &Place, obj: ObjRef) -> Acted
    requires { IsLive store.now.objects obj }
    ensures { (p : Program) (s : ScriptTables) → Performs p s (Due.FindKeys obj) store.now place.now store.now place.now result }
{
    match find_keys(store, place, obj) {
        Ok(next) => Acted::Went(next),
        Err(_) => Acted::Memory,
    }
}

/// Does an action that takes no unit.
#[inline(always)]
pub(crate) fn perform(
    alloc: Global,
    tables: &Tables,
    script: &Script,
    store: &mut Store,
    place: &mut Place,
    due: Due,
) -> Acted
    requires { Fits script.now store.old.objects place.old.next_symbol due }
    ensures { let p : Program = program_of tables.now script.now in IsReadOver p.list script.now → Performs p script.now due store.old place.old store.new place.new result }
{
    match due {
        Due::Depth {
            f,
            this,
            args,
            body,
        } => deepen(store, place, f, this, args, body),
        Due::DepthOfNew { f, args } => deepen_new(store, place, f, args),
        Due::Enter { number, this, args } => {
            enters(alloc, script, store, place, number, this, args)
        }
        Due::EnterBuiltin {
            f,
            function,
            this,
            args,
        } => enters_builtin(alloc, store, place, f, function, this, args),
        Due::Leave(completion) => Acted::Went(leave(store, place, completion)),
        Due::FindBody { f, this, args } => Acted::Went(find_body(store, place, f, this, args)),
        Due::FindConstructor { f, args } => { Acted::Went(find_constructor(store, place, f, args)) }
        Due::ReadThis => reads_this(store, place),
        Due::ReadName(name) => reads_name(script, store, place, name),
        Due::Bind { name, value, then } => { binds_name(script, store, place, name, value, then) }
        Due::TakeSymbol => Acted::Went(take_symbol(store, place)),
        Due::Add { new, then } => add(alloc, script, store, place, new, then),
        Due::Find { obj, key } => finds(alloc, store, place, obj, key),
        Due::Put { obj, key, value } => puts(alloc, store, place, obj, key, value),
        Due::Define { obj, key, prop } => defines(store, place, obj, key, prop),
        Due::Delete { obj, key } => Acted::Went(delete(store, place, obj, key)),
        Due::FindKeys(obj) => lists_keys(store, place, obj),
        Due::FindOwn { obj, key } => Acted::Went(find_own(store, place, obj, key)),
        Due::Look { obj, what } => Acted::Went(look(store, place, obj, what)),
        Due::Change { obj, change } => Acted::Went(change_part(store, place, obj, change)),
        Due::Reach(end) => reach(store, place, end),
    }
}
