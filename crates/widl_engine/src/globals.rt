//! What names stand for.

ghost use Rattle.std.specs.Prelude.{◌≡◌, ℕ, List, None, OnOk, IfOk, bytes_eq};
ghost use Rattle.std.specs.List.{list_any};
ghost use Rattle.widl_script_tree.specs.Tables.{name_at};
ghost use Rattle.widl_store.specs.Objects.{StoreState};
ghost use Rattle.widl_trace.specs.EventTerms.{EventTerm};
ghost use Rattle.widl_runs.specs.Worlds.{global_value, named_value, owner_named, owner_object};
ghost use Rattle.widl_runs.specs.Actions.{BindName, IsDone};
ghost use Rattle.widl_runs.specs.Jobs.{Program};
ghost use Rattle.widl_engine.specs.Place.{Acts, global_of, names_of, world_of};
ghost use Rattle.widl_engine.specs.ReadOver.{IsReadOver};

use crate::contexts::{Context, Place};
use std::alloc::AllocError;
use widl_script_tree::Script;
use widl_script_tree::laws::parts_are_lower;
use widl_store::{Home, Store};
use widl_value::Value;

/// Whether a name is local in the function of a context.
#[inline(always)]
fn has_local(script: &Script, context: &Context, name: u32) -> bool
    ensures { result ≡ list_any (bytes_eq (name_at script.now name)) (names_of script.now context.now.function) }
{
    parts_are_lower(script);
    match context.function {
        None => false,
        Some(number) => script.is_local(number, name),
    }
}

/// The interface object or the namespace object of a name.
#[inline(always)]
fn owner(script: &Script, store: &Store, name: u32) -> Value
    ensures { (p : Program) → IsReadOver p.list script.now → result ≡ global_value None (owner_object store.now (owner_named p.list (name_at script.now name))) }
{
    match script.owner(name) {
        None => Value::Undefined,
        Some(owner) => match store.home(Home::Owner(owner)) {
            None => Value::Undefined,
            Some(object) => Value::Obj(object),
        },
    }
}

/// What a name stands for that isn't local.
#[inline(always)]
fn global(script: &Script, store: &Store, place: &Place, name: u32) -> Result<Value, AllocError>
    ensures { IfOk result (λ v. (p : Program) → IsReadOver p.list script.now → v ≡ global_value (global_of script.now place.now name) (owner_object store.now (owner_named p.list (name_at script.now name)))) }
{
    parts_are_lower(script);
    match place.globals.get(name) {
        Some(value) => value.copy(),
        None => Ok(owner(script, store, name)),
    }
}

/// What a name stands for: a local, where the function has the name, else a global, else an interface
/// or a namespace.
#[inline(always)]
pub(crate) fn read(
    script: &Script,
    store: &Store,
    place: &Place,
    name: u32,
) -> Result<Value, AllocError>
    ensures { IfOk result (λ v. (p : Program) → IsReadOver p.list script.now → (k : ℕ) (ls : List EventTerm) → v ≡ named_value p.list (world_of script.now store.now place.now k ls) (name_at script.now name)) }
{
    parts_are_lower(script);
    match &place.here {
        None => global(script, store, place, name),
        Some(context) => {
            if has_local(script, context, name) {
                match context.locals.get(name) {
                    None => Ok(Value::Undefined),
                    Some(value) => value.copy(),
                }
            } else {
                global(script, store, place, name)
            }
        }
    }
}

/// Binds a value to a name: a local where the function has the name, else a global.
#[inline(always)]
pub(crate) fn bind(
    script: &Script,
    place: &mut Place,
    name: u32,
    value: Value,
) -> Result<(), AllocError>
    ensures { OnOk result ((p : Program) (t : StoreState) → Acts p script.now (BindName (name_at script.now name) value) t place.old t place.new IsDone) }
{
    parts_are_lower(script);
    match &mut place.here {
        None => {}
        Some(context) => {
            if has_local(script, context, name) {
                context.locals.set(name, value)?;
                return Ok(());
            }
        }
    }
    place.globals.set(name, value)?;
    Ok(())
}
