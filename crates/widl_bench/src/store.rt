//! The word `store`: properties are put, found and deleted, and found along prototypes.

ghost use Rattle.std.specs.Prelude.{◌≡◌, ◌+◌, ◌-◌, ◌^◌, ◌≤◌, ◌<◌, IfOk, IfSome, OnOk, length};
ghost use Rattle.widl_store.specs.Objects.{IsLive};
ghost use Rattle.widl_value.specs.declared.object.ObjRef as references;

use crate::numbers::number_of;
use crate::sets::no_files;
use anyhow::{Result, bail};
use std::alloc::Global;
use std::mem::{self, ManuallyDrop};
use widl_overload::{Accepted, has_operations_alone};
use widl_store::laws::{first_store_is_bounded, references_stay_live};
use widl_store::{Found, Inner, Put, Store, realm};
use widl_text::{Key, Units};
use widl_value::{Number, ObjRef, Shape, Value};

/// How many prototypes there may be.
const MOST_PROTOTYPES: usize = 1_000_000;

/// The first store of a set.
fn store_of(alloc: Global, list: &Accepted) -> Result<Store>
    ensures { IfOk result (λ store. length store.objects ≤ 1000018) }
{
    first_store_is_bounded();
    let _defs = list.defs();
    if has_operations_alone(list) {
        Ok(realm(alloc, list)?)
    } else {
        bail!("the first store of the set of no files is not supported")
    }
}

/// A store without definitions.
fn first_store(alloc: Global) -> Result<Store>
    ensures { IfOk result (λ store. length store.objects ≤ 1000018) }
{
    let list = no_files(alloc)?;
    store_of(alloc, &list)
}

/// Adds a plain object.
fn add_plain(store: &mut Store, proto: Option<ObjRef>) -> Result<ObjRef>
    requires few { length store.old.objects < 2 ^ 32 - 1 }
    requires proto { IfSome proto (λ p. IsLive store.old.objects p) }
    ensures live { IfOk result (λ obj. IsLive store.new.objects obj) }
    ensures one { OnOk result (length store.new.objects ≡ length store.old.objects + 1) }
    ensures others { OnOk result ((p : references.ObjRef) → IsLive store.old.objects p → IsLive store.new.objects p) }
{
    Ok(store.add(proto, Shape::Plain, Inner::Plain)?)
}

/// The key of a number: a copy, which has room for its units alone, as the keys of a run are.
fn key(alloc: Global, number: usize) -> Result<Key> {
    let text = format!(in alloc; "key{number}")?;
    let units = Units::of_str(alloc, text.as_str())?;
    Ok(Key::Name(units.copy()?))
}

/// Gives the object a property for the number.
fn put_key(alloc: Global, store: &mut Store, obj: ObjRef, number: usize) -> Result<()>
    requires { IsLive store.old.objects obj }
    ensures { OnOk result ((p : references.ObjRef) → IsLive store.old.objects p → IsLive store.new.objects p) }
{
    let key = key(alloc, number)?;
    let value = Value::Num(Number::Whole(number as i128));
    references_stay_live();
    match store.put(obj, key, value) {
        Ok(Put::Done) => Ok(()),
        _ => bail!("a property can't be put"),
    }
}

/// Gives the object a property for each number below `count`.
fn put_keys(alloc: Global, store: &mut Store, obj: ObjRef, count: usize) -> Result<()>
    requires { IsLive store.old.objects obj }
    ensures { OnOk result (IsLive store.new.objects obj) }
{
    for number in 0..count {
        put_key(alloc, store, obj, number)?;
    }
    Ok(())
}

/// How many of the keys are found, each in each round.
fn find_keys(store: &Store, obj: ObjRef, keys: &[Key], rounds: usize) -> usize
    requires { IsLive store.now.objects obj }
{
    let mut found = 0usize;
    for _ in 0..rounds {
        for key in keys {
            if let Found::Held(_) = store.find(obj, key) {
                found = found.saturating_add(1);
            }
        }
    }
    found
}

/// Deletes the property at a key.
fn delete_key(store: &mut Store, obj: ObjRef, key: &Key) -> Result<()>
    requires { IsLive store.old.objects obj }
    ensures { OnOk result (IsLive store.new.objects obj) }
{
    references_stay_live();
    if store.delete(obj, key).is_err() {
        bail!("a property can't be deleted");
    }
    Ok(())
}

/// As many keys as `few` of numbers below `count`, none of them near the one before.
fn scattered(alloc: Global, count: usize, few: usize) -> Result<ManuallyDrop<Vec<Key>>> {
    let mut keys = ManuallyDrop::new(Vec::new(alloc));
    for place in 0..few {
        let number = place.wrapping_mul(2_654_435_761).checked_rem(count);
        keys.push(key(alloc, number.unwrap_or(0))?)?;
    }
    Ok(keys)
}

/// Puts `count` properties, and finds `few` of them in each round.
fn keys(alloc: Global, store: &mut Store, count: usize, few: usize, rounds: usize) -> Result<usize>
    requires { length store.old.objects ≤ 1000018 }
{
    let obj = add_plain(store, None)?;
    put_keys(alloc, store, obj, count)?;
    let keys = scattered(alloc, count, few)?;
    Ok(find_keys(store, obj, keys.as_slice(), rounds))
}

/// The keys of the numbers below `count`.
fn first_keys(alloc: Global, count: usize) -> Result<ManuallyDrop<Vec<Key>>> {
    let mut keys = ManuallyDrop::new(Vec::new(alloc));
    for number in 0..count {
        keys.push(key(alloc, number)?)?;
    }
    Ok(keys)
}

/// Puts `count` properties, finds each, and deletes each, in their order.
fn deletions(alloc: Global, store: &mut Store, count: usize) -> Result<usize>
    requires { length store.old.objects ≤ 1000018 }
{
    let obj = add_plain(store, None)?;
    put_keys(alloc, store, obj, count)?;
    let keys = first_keys(alloc, count)?;
    let found = find_keys(store, obj, keys.as_slice(), 1);
    for key in keys.as_slice() {
        delete_key(store, obj, key)?;
    }
    Ok(found)
}

/// An object below another by so many prototypes.
fn add_below(store: &mut Store, first: ObjRef, count: usize) -> Result<ObjRef>
    requires few { length store.old.objects ≤ 1000019 }
    requires live { IsLive store.old.objects first }
    ensures last { IfOk result (λ obj. IsLive store.new.objects obj) }
    ensures first { OnOk result (IsLive store.new.objects first) }
{
    if count > MOST_PROTOTYPES {
        bail!("{count} are too many prototypes");
    }
    let mut last = first;
    for added in 0..count {
        last = add_plain(store, Some(last))?;
    }
    Ok(last)
}

/// Finds a key in each round at the far end of `count` prototypes, and misses another.
fn prototypes(alloc: Global, store: &mut Store, count: usize, rounds: usize) -> Result<usize>
    requires { length store.old.objects ≤ 1000018 }
{
    let first = add_plain(store, None)?;
    let last = add_below(store, first, count)?;
    put_key(alloc, store, first, 0)?;
    let keys = first_keys(alloc, 2)?;
    Ok(find_keys(store, last, keys.as_slice(), rounds))
}

/// How many properties were found, where this is done with the store as often as the numbers say.
fn found(alloc: Global, store: &mut Store, what: &str, numbers: [usize; 3]) -> Result<usize>
    requires { length store.old.objects ≤ 1000018 }
{
    let [count, few, rounds] = numbers;
    match what {
        "keys" => keys(alloc, store, count, few, rounds),
        "deletions" => deletions(alloc, store, count),
        "prototypes" => prototypes(alloc, store, count, few),
        _ => bail!("keys, deletions or prototypes are wanted"),
    }
}

/// The numbers that the arguments say; those that are left out are 0.
fn numbers_of(args: &[String]) -> Result<[usize; 3]> {
    let mut numbers = [0usize; 3];
    for (number, text) in numbers.iter_mut().zip(args) {
        *number = number_of(text.as_str())?;
    }
    Ok(numbers)
}

/// Does what the first argument says as often as the others say, and prints how many properties were found:
/// `keys COUNT FEW ROUNDS`, `deletions COUNT`, or `prototypes COUNT ROUNDS`. The memory of the store is left to the end of the
/// program.
pub fn run(rt: &HostRuntime, args: &[String]) -> Result<()> {
    let Some((what, rest)) = args.split_first() else {
        bail!("keys, deletions or prototypes, and numbers, are wanted");
    };
    let numbers = numbers_of(rest)?;
    let mut store = first_store(rt.alloc())?;
    let found = found(rt.alloc(), &mut store, what.as_str(), numbers);
    mem::forget(store);
    println!(rt; "{} found", found?)?;
    Ok(())
}
