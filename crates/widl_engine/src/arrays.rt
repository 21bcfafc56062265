//! New arrays.

ghost use Rattle.std.specs.Prelude.{◌≡◌, ◌<◌, ◌^◌, ◌-◌, IfOk, OnOk, decimal, length};
ghost use Rattle.widl_text.specs.declared.key.Key.TheVariants.{Name};
ghost use Rattle.widl_store.specs.Effects.{defined};
ghost use Rattle.widl_store.specs.Objects.{IsLive, all_flags, with_objects};
ghost use Rattle.widl_steps.specs.AskTerms.{NewArray};
ghost use Rattle.widl_runs.specs.Actions.{plan_of};
ghost use Rattle.widl_engine.specs.Added.{IsAdded};
ghost use Rattle.widl_runs.specs.Fitting.{HasPrototypes};

use std::alloc::{AllocError, Global};
use widl_store::{Inner, Prop, Store};
use widl_text::{Key, Units};
use widl_value::{Flags, ObjRef, Shape, Value, Values};

/// `Array.prototype`.
const ARRAY_PROTOTYPE: ObjRef = ObjRef {
    id: 2,
    shape: Shape::Plain,
};

/// The flags of an item.
const ALL_FLAGS: Flags = Flags {
    writable: true,
    enumerable: true,
    configurable: true,
};

/// The key of an index.
fn index_key(alloc: Global, index: usize) -> Result<Key, AllocError>
    ensures { IfOk result (λ k. k ≡ Name (decimal index)) }
{
    let text = format!(in alloc; "{index}")?;
    Ok(Key::Name(Units::of_ascii(alloc, &text)?))
}

/// Defines an item of a new array, which has no such property yet: so what isn't done is for want of
/// memory.
pub(crate) fn define_item(
    store: &mut Store,
    array: ObjRef,
    key: Key,
    value: Value,
) -> Result<(), AllocError>
    requires { IsLive store.old.objects array }
    ensures { OnOk result (store.new ≡ with_objects store.old (defined store.old.objects array.id key (Prop.Plain value all_flags))) }
{
    let prop = Prop::Plain {
        value,
        flags: ALL_FLAGS,
    };
    match store.define(array, key, prop) {
        Ok(()) => Ok(()),
        Err(_) => Err(AllocError),
    }
}

/// Adds an array of these items.
pub(crate) fn add_array(
    alloc: Global,
    store: &mut Store,
    items: Values,
) -> Result<ObjRef, AllocError>
    requires small { length store.old.objects < 2 ^ 32 - 1 }
    requires prototypes { HasPrototypes store.old.objects }
    ensures { IfOk result (λ o. IsAdded store.old store.new o (plan_of (NewArray items))) }
{
    let mut items = items;
    let count = items.len();
    let array = store.add(Some(ARRAY_PROTOTYPE), Shape::Plain, Inner::Array)?;
    'each: for index in 0..count {
        let value = items.replace(index, Value::Undefined);
        define_item(store, array, index_key(alloc, index)?, value)?;
    }
    Ok(array)
}
