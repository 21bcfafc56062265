//! The new objects of conversations.

ghost use Rattle.std.specs.Prelude.{◌≡◌, ◌<◌, ◌^◌, ◌-◌, IfOk, OnOk, length};
ghost use Rattle.widl_store.specs.Effects.{defined};
ghost use Rattle.widl_store.specs.Objects.{IsLive, all_flags, with_objects};
ghost use Rattle.widl_steps.specs.AskTerms.{NewArrayIterator, NewObject, new_term};
ghost use Rattle.widl_runs.specs.Actions.{plan_of};
ghost use Rattle.widl_runs.specs.Fitting.{HasPrototypes};
ghost use Rattle.widl_engine.specs.Added.{IsAdded};

use crate::arrays::{add_array, define_item};
use std::alloc::{AllocError, Global};
use widl_steps::{New, ScriptEntries};
use widl_store::{Inner, Store, Turn};
use widl_text::Key;
use widl_value::{ObjRef, Shape, Value};

/// `Object.prototype`.
pub(crate) const OBJECT_PROTOTYPE: ObjRef = ObjRef {
    id: 0,
    shape: Shape::Plain,
};

/// `%ArrayIteratorPrototype%`.
const ARRAY_ITERATOR_PROTOTYPE: ObjRef = ObjRef {
    id: 7,
    shape: Shape::Plain,
};

/// Adds an ordinary object with these properties.
fn add_entries(store: &mut Store, entries: ScriptEntries) -> Result<ObjRef, AllocError>
    requires small { length store.old.objects < 2 ^ 32 - 1 }
    requires prototypes { HasPrototypes store.old.objects }
    ensures { IfOk result (λ o. IsAdded store.old store.new o (plan_of (NewObject entries))) }
{
    let mut entries = entries;
    let count = entries.len();
    let object = store.add(Some(OBJECT_PROTOTYPE), Shape::Plain, Inner::Plain)?;
    'each: for place in 0..count {
        let (key, value) = entries.replace(place, (Key::Sym(0), Value::Undefined));
        define_item(store, object, key, value)?;
    }
    Ok(object)
}

/// Adds an iterator over the elements of an object.
fn add_array_iterator(store: &mut Store, of: ObjRef) -> Result<ObjRef, AllocError>
    requires small { length store.old.objects < 2 ^ 32 - 1 }
    requires prototypes { HasPrototypes store.old.objects }
    ensures { IfOk result (λ o. IsAdded store.old store.new o (plan_of (NewArrayIterator of))) }
{
    let inner = Inner::ArrayIterator {
        of,
        next: 0,
        turn: Turn::Idle,
    };
    store.add(Some(ARRAY_ITERATOR_PROTOTYPE), Shape::Plain, inner)
}

/// Adds what a conversation asks for.
pub(crate) fn add_asked(alloc: Global, store: &mut Store, new: New) -> Result<ObjRef, AllocError>
    requires small { length store.old.objects < 2 ^ 32 - 1 }
    requires prototypes { HasPrototypes store.old.objects }
    ensures { IfOk result (λ o. IsAdded store.old store.new o (plan_of (new_term new))) }
{
    match new {
        New::Array(items) => add_array(alloc, store, items),
        New::Object(entries) => add_entries(store, entries),
        New::ArrayIterator(of) => add_array_iterator(store, of),
    }
}
