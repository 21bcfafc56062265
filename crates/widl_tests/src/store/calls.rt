//! Calls of a store with their answers in words, for tests.

use super::objects::Objects;
use super::written::write_key;
use crate::shared::{expect, number, sure, units};
use std::alloc::Global;
use std::mem::ManuallyDrop;
use std::process::Abort;
use widl_store::{DefineFault, Found, NotConfigurable, Prop, Put, PutFault};
use widl_text::Key;
use widl_value::{Flags, Number, ObjRef, Shape, Value};

/// `Object.prototype`.
pub const FIRST: ObjRef = ObjRef {
    id: 0,
    shape: Shape::Plain,
};

/// `Array.prototype`, which is an array.
pub const ARRAY: ObjRef = ObjRef {
    id: 2,
    shape: Shape::Plain,
};

pub fn name(rt: &impl Abort, alloc: Global, text: &str) -> Key {
    Key::Name(units(rt, alloc, text))
}

/// A property that is enumerable, of the number 1.
pub fn plain(writable: bool, configurable: bool) -> Prop {
    Prop::Plain {
        value: number(1),
        flags: Flags {
            writable,
            enumerable: true,
            configurable,
        },
    }
}

/// An object with this prototype.
pub fn heir(rt: &impl Abort, store: &mut Objects, proto: ObjRef) -> ObjRef {
    assert!(rt; store.len() < 4_294_967_295);
    assert!(rt; store.is_live(proto));
    sure(rt, store.add(proto))
}

fn put_word(answer: &Result<Put, PutFault>) -> &'static str {
    match answer {
        Ok(Put::Done) => "done",
        Ok(Put::Setter(_, _)) => "setter",
        Err(PutFault::ReadOnly(_)) => "read only",
        Err(PutFault::NoSetter) => "no setter",
        Err(PutFault::Length) => "length",
        Err(PutFault::Memory) => "memory",
    }
}

/// What a put of the number answers.
pub fn put(rt: &impl Abort, store: &mut Objects, obj: ObjRef, key: Key, n: i128) -> &'static str {
    assert!(rt; store.is_live(obj));
    put_word(&store.put(obj, key, number(n)))
}

/// What a put of 1 at a name answers.
pub fn expect_put(
    rt: &impl Abort,
    alloc: Global,
    store: &mut Objects,
    obj: ObjRef,
    text: &str,
    want: &str,
) {
    let key = name(rt, alloc, text);
    expect(rt, put(rt, store, obj, key, 1) == want, text);
}

/// Puts the number at a key.
pub fn expect_done(rt: &impl Abort, store: &mut Objects, obj: ObjRef, key: Key, n: i128) {
    expect(rt, put(rt, store, obj, key, n) == "done", "a put");
}

fn define_word(answer: Result<(), DefineFault>) -> &'static str {
    match answer {
        Ok(()) => "done",
        Err(DefineFault::NotConfigurable(_)) => "not configurable",
        Err(DefineFault::Length) => "length",
        Err(DefineFault::Memory) => "memory",
    }
}

/// What a definition of the property answers.
pub fn define(
    rt: &impl Abort,
    store: &mut Objects,
    obj: ObjRef,
    key: Key,
    prop: Prop,
) -> &'static str {
    assert!(rt; store.is_live(obj));
    define_word(store.define(obj, key, prop))
}

/// What a definition at a name answers.
pub fn expect_define(
    rt: &impl Abort,
    alloc: Global,
    store: &mut Objects,
    obj: ObjRef,
    text: &str,
    want: &str,
) {
    let key = name(rt, alloc, text);
    let found = define(rt, store, obj, key, plain(true, true));
    expect(rt, found == want, text);
}

fn delete_word(answer: Result<(), NotConfigurable>) -> &'static str {
    match answer {
        Ok(()) => "done",
        Err(NotConfigurable(_)) => "not configurable",
    }
}

/// What a deletion at a key answers.
pub fn delete(rt: &impl Abort, store: &mut Objects, obj: ObjRef, key: &Key) -> &'static str {
    assert!(rt; store.is_live(obj));
    delete_word(store.delete(obj, key))
}

/// What a deletion at a name answers.
pub fn expect_delete(
    rt: &impl Abort,
    alloc: Global,
    store: &mut Objects,
    obj: ObjRef,
    text: &str,
    want: &str,
) {
    let key = ManuallyDrop::new(name(rt, alloc, text));
    expect(rt, delete(rt, store, obj, &key) == want, text);
}

fn found_number(found: &Found) -> Option<i128> {
    match found {
        Found::Held(Value::Num(Number::Whole(n))) => Some(*n),
        _ => None,
    }
}

/// The number that is found at a key.
pub fn find(rt: &impl Abort, store: &Objects, obj: ObjRef, key: &Key) -> Option<i128> {
    assert!(rt; store.is_live(obj));
    found_number(&store.find(obj, key))
}

/// The number that is found at a name.
pub fn expect_number(
    rt: &impl Abort,
    alloc: Global,
    store: &Objects,
    obj: ObjRef,
    text: &str,
    want: i128,
) {
    let key = ManuallyDrop::new(name(rt, alloc, text));
    expect(rt, find(rt, store, obj, &key) == Some(want), text);
}

fn found_word(found: &Found) -> &'static str {
    match found {
        Found::Held(_) => "held",
        Found::Getter(_) => "getter",
        Found::NoGetter => "no getter",
        Found::Nothing => "nothing",
    }
}

/// What is found at a name.
pub fn expect_found(
    rt: &impl Abort,
    alloc: Global,
    store: &Objects,
    obj: ObjRef,
    text: &str,
    want: &str,
) {
    let key = ManuallyDrop::new(name(rt, alloc, text));
    assert!(rt; store.is_live(obj));
    expect(rt, found_word(&store.find(obj, &key)) == want, text);
}

/// Whether the property that the object itself has at a name is enumerable, where it has one.
pub fn expect_own(
    rt: &impl Abort,
    alloc: Global,
    store: &Objects,
    obj: ObjRef,
    text: &str,
    want: Option<bool>,
) {
    let key = ManuallyDrop::new(name(rt, alloc, text));
    assert!(rt; store.is_live(obj));
    let found = store.own(obj, &key).map(|flags| flags.enumerable);
    expect(rt, found == want, text);
}

/// The keys in their order, each with a space after it.
pub fn expect_keys(rt: &impl Abort, alloc: Global, store: &Objects, obj: ObjRef, want: &str) {
    assert!(rt; store.is_live(obj));
    let keys = sure(rt, store.own_keys(obj));
    let mut text = String::new(alloc);
    for key in keys.as_slice() {
        write_key(rt, &mut text, key);
        sure(rt, text.push_str(" "));
    }
    expect(rt, text.as_str() == want, want);
}

/// A property that isn't configurable.
pub fn accessor(get: Option<ObjRef>, set: Option<ObjRef>) -> Prop {
    Prop::Accessor {
        get,
        set,
        flags: Flags {
            writable: false,
            enumerable: true,
            configurable: false,
        },
    }
}

/// Defines a property of the first object.
pub fn set(rt: &impl Abort, alloc: Global, store: &mut Objects, text: &str, prop: Prop) {
    let key = name(rt, alloc, text);
    expect(rt, define(rt, store, FIRST, key, prop) == "done", text);
}
