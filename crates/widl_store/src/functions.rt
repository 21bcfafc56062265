//! The functions of operations.

ghost use Rattle.std.specs.Prelude.{◌≡◌, IfOk, OnOk, Some, codes, fold, length, map, min};
ghost use Rattle.widl_idl.specs.DefinitionTerms.{arg_term, sig_term};
ghost use Rattle.widl_store.specs.Effects.{new_object, with_props};
ghost use Rattle.widl_store.specs.Inners.{BuiltinPart};
ghost use Rattle.widl_store.specs.Objects.{length_key, plain_object, with_prop};
ghost use Rattle.widl_store.specs.Plans.{function, function_entries, name as name_entry, number as length_entry, object_of, with_entries};
ghost use Rattle.widl_store.specs.Realm.{needed, shortest};

use crate::inner::{Builtin, Inner};
use crate::object::Object;
use crate::plans::{count, text};
use std::alloc::{AllocError, Global};
use widl_idl::{Arg, Sig};
use widl_overload::is_free;
use widl_text::{Key, Units};
use widl_value::{ObjRef, Shape};

/// A built-in function with its length and then its name (Web IDL, "Creating an operation function").
///
/// # Errors
///
/// `AllocError` where there is no memory.
pub(crate) fn function(
    alloc: Global,
    lengths: &Key,
    what: Builtin,
    arguments: usize,
    name: &Units,
) -> Result<Object, AllocError>
    requires { lengths.now ≡ length_key }
    ensures { IfOk result (λ o. o ≡ object_of (function what arguments name.now)) }
{
    let mut object = empty_function(alloc, lengths, what)?;
    match describe(alloc, lengths, &mut object, arguments, name) {
        Ok(()) => Ok(object),
        Err(error) => {
            drop(object);
            Err(error)
        }
    }
}

/// A built-in function without its properties.
fn empty_function(alloc: Global, lengths: &Key, what: Builtin) -> Result<Object, AllocError>
    requires { lengths.now ≡ length_key }
    ensures { IfOk result (λ o. o ≡ new_object (Some (plain_object 1)) Shape.Callable (BuiltinPart what)) }
{
    let proto = ObjRef {
        id: 1,
        shape: Shape::Plain,
    };
    Object::new(
        alloc,
        lengths,
        Some(proto),
        Shape::Callable,
        Inner::Builtin(what),
    )
}

/// Gives a function its length and then its name.
fn describe(
    alloc: Global,
    lengths: &Key,
    object: &mut Object,
    arguments: usize,
    name: &Units,
) -> Result<(), AllocError>
    requires { lengths.now ≡ length_key }
    ensures { OnOk result (object.new ≡ with_props object.old (with_entries object.old.props (function_entries arguments name.now))) }
{
    set_length(lengths, object, arguments)?;
    set_name(alloc, object, name)?;
    Ok(())
}

/// Gives a function its length.
fn set_length(lengths: &Key, object: &mut Object, arguments: usize) -> Result<(), AllocError>
    requires { lengths.now ≡ length_key }
    ensures { OnOk result (object.new ≡ with_props object.old (with_prop object.old.props (length_entry arguments).0 (length_entry arguments).1)) }
{
    let key = lengths.copy()?;
    object.set(key, count(arguments))?;
    Ok(())
}

/// Gives a function its name.
fn set_name(alloc: Global, object: &mut Object, held: &Units) -> Result<(), AllocError>
    ensures { OnOk result (object.new ≡ with_props object.old (with_prop object.old.props (name_entry held.now).0 (name_entry held.now).1)) }
{
    let key = name_key(alloc)?;
    let Ok(copy) = held.copy() else {
        drop(key);
        return Err(AllocError);
    };
    object.set(key, text(copy))?;
    Ok(())
}

/// The key of the name of a function.
fn name_key(alloc: Global) -> Result<Key, AllocError>
    ensures { IfOk result (λ key. key ≡ Key.Name (codes "name")) }
{
    Ok(Key::Name(Units::of_ascii(alloc, "name")?))
}

/// The least number of arguments of a call of an operation, over its overloads.
pub(crate) fn shortest(sigs: &[Sig]) -> usize
    ensures { result ≡ shortest (map sig_term sigs.now) }
{
    match sigs {
        [] => 0,
        [first, rest @ ..] => least_needed(needed(first.args.as_slice()), rest),
    }
}

/// The least of this number and what the overloads need.
fn least_needed(first: usize, sigs: &[Sig]) -> usize
    ensures { result ≡ fold min first (map (λ s. needed s.args) (map sig_term sigs.now)) }
{
    let mut least = first;
    for sig in sigs {
        least = least.min(needed(sig.args.as_slice()));
    }
    least
}

/// How many arguments a call of an overload has to give.
fn needed(args: &[Arg]) -> usize
    ensures { result ≡ needed (map arg_term args.now) }
{
    let mut place = args.len();
    let mut count = 0;
    while place > 0 {
        place -= 1;
        if count > 0 || !is_free(args[place].opt, place + 1 == args.len()) {
            count += 1;
        }
    }
    count
}
