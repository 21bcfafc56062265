//! New objects.

ghost use Rattle.std.specs.Prelude.{◌≡◌, ◌<◌, ◌^◌, ◌-◌, IfOk, OnOk, IfSome, Ok, length, pos};
ghost use Rattle.widl_script_tree.specs.Tables.{function_at, name_at};
ghost use Rattle.widl_store.specs.Effects.{define_of, defined, is_fixed};
ghost use Rattle.widl_store.specs.Objects.{IsLive, own_at, with_objects};
ghost use Rattle.widl_runs.specs.Actions.{ordinary, script_function, type_error};
ghost use Rattle.widl_engine.specs.Added.{IsAdded};
ghost use Rattle.widl_runs.specs.Fitting.{HasPrototypes};
ghost use Rattle.widl_engine.specs.Frames.{parameters_of};

use std::alloc::{AllocError, Global};
use widl_script_tree::Script;
use widl_store::{Inner, Prop, Store};
use widl_text::{Key, Units};
use widl_value::{Flags, Number, ObjRef, Shape, Value};

/// `Function.prototype`.
const FUNCTION_PROTOTYPE: ObjRef = ObjRef {
    id: 1,
    shape: Shape::Plain,
};

/// `TypeError.prototype`.
const TYPE_ERROR_PROTOTYPE: ObjRef = ObjRef {
    id: 4,
    shape: Shape::Plain,
};

/// The flags of a function's length and name.
const CONFIGURABLE_ALONE: Flags = Flags {
    writable: false,
    enumerable: false,
    configurable: true,
};

/// Adds an ordinary object.
pub(crate) fn add_ordinary(store: &mut Store, proto: Option<ObjRef>) -> Result<ObjRef, AllocError>
    requires small { length store.old.objects < 2 ^ 32 - 1 }
    requires proto { IfSome proto (IsLive store.old.objects) }
    ensures { IfOk result (λ o. IsAdded store.old store.new o (ordinary proto)) }
{
    store.add(proto, Shape::Plain, Inner::Plain)
}

/// Adds a TypeError.
pub(crate) fn add_error(store: &mut Store) -> Result<ObjRef, AllocError>
    requires small { length store.old.objects < 2 ^ 32 - 1 }
    requires prototypes { HasPrototypes store.old.objects }
    ensures { IfOk result (λ o. IsAdded store.old store.new o type_error) }
{
    store.add(Some(TYPE_ERROR_PROTOTYPE), Shape::Plain, Inner::Error)
}

/// Defines a property that nothing refuses.
fn define(store: &mut Store, obj: ObjRef, key: Key, prop: Prop) -> Result<(), AllocError>
    requires live { IsLive store.old.objects obj }
    requires free { define_of (is_fixed store.old.objects obj.id key) (own_at store.old.objects obj.id key) ≡ Ok tt }
    ensures { OnOk result (store.new ≡ with_objects store.old (defined store.old.objects obj.id key prop)) }
{
    match store.define(obj, key, prop) {
        Ok(()) => Ok(()),
        Err(_) => Err(AllocError),
    }
}

/// A count as a Number.
fn number_of(count: usize) -> Number
    ensures { result ≡ Number.Whole (pos count) }
{
    Number::Whole(count as i128)
}

/// Adds the function of this number.
pub(crate) fn add_function(
    alloc: Global,
    script: &Script,
    store: &mut Store,
    number: u32,
) -> Result<ObjRef, AllocError>
    requires small { length store.old.objects < 2 ^ 32 - 1 }
    requires prototypes { HasPrototypes store.old.objects }
    requires there { number < length script.now.functions }
    ensures { IfOk result (λ o. IsAdded store.old store.new o (script_function number (name_at script.now (function_at script.now number).name) (parameters_of script.now number))) }
{
    let function = script.function(number);
    let count = number_of(function.params.len());
    let name = script.name(function.name).copy()?;
    let length_key = Key::Name(Units::of_ascii(alloc, "length")?);
    let name_key = Key::Name(Units::of_ascii(alloc, "name")?);
    let length = Prop::Plain {
        value: Value::Num(count),
        flags: CONFIGURABLE_ALONE,
    };
    let text = Prop::Plain {
        value: Value::Str(name),
        flags: CONFIGURABLE_ALONE,
    };
    let object = store.add(
        Some(FUNCTION_PROTOTYPE),
        Shape::Callable,
        Inner::Script(number),
    )?;
    define(store, object, length_key, length)?;
    define(store, object, name_key, text)?;
    Ok(object)
}
