//! Each call: what it answers, what it refuses, and the order of keys.

mod calls;
mod initial;
mod many;
mod objects;
mod written;

use crate::shared::{expect, number};
use calls::{
    ARRAY, FIRST, accessor, define, expect_define, expect_delete, expect_done, expect_found,
    expect_keys, expect_number, expect_own, expect_put, heir, name, plain, set,
};
use objects::{Objects, realm_over};
use std::alloc::Global;
use std::process::Abort;
use widl_store::Prop;
use widl_text::Key;
use widl_value::{Flags, ObjRef};
use written::written;

/// Names, what a put of each answers and the length of the array after it.
const LENGTHS: [(&str, &str, i128); 8] = [
    ("41", "done", 42),
    ("7", "done", 42),
    ("42", "done", 43),
    ("01", "done", 43),
    ("4294967295", "done", 43),
    ("a", "done", 43),
    ("4294967294", "done", 4_294_967_295),
    ("length", "length", 4_294_967_295),
];

/// The length of an array is raised.
fn expect_lengths(rt: &impl Abort, alloc: Global, rows: &[(&str, &str, i128)]) {
    let mut store = realm_over(rt, alloc, &[]);
    for (text, answer, length) in rows {
        expect_put(rt, alloc, &mut store, ARRAY, text, answer);
        expect_number(rt, alloc, &store, ARRAY, "length", *length);
    }
}

/// Properties of the first object: read only, with a setter alone, with a getter alone.
fn set_all(rt: &impl Abort, alloc: Global, store: &mut Objects) {
    set(rt, alloc, store, "fixed", plain(false, false));
    set(rt, alloc, store, "set", accessor(None, Some(FIRST)));
    set(rt, alloc, store, "get", accessor(Some(FIRST), None));
}

/// Neither a definition nor a deletion changes what isn't configurable.
fn refuse_on(rt: &impl Abort, alloc: Global, store: &mut Objects, text: &str) {
    expect_define(rt, alloc, store, FIRST, text, "not configurable");
    expect_delete(rt, alloc, store, FIRST, text, "not configurable");
}

/// Names and what a put of each refuses, at an heir of the first object.
const REFUSED: [(&str, &str); 3] = [
    ("fixed", "read only"),
    ("set", "setter"),
    ("get", "no setter"),
];

fn refuse_all(rt: &impl Abort, alloc: Global, store: &mut Objects, obj: ObjRef) {
    for (text, answer) in &REFUSED {
        expect_put(rt, alloc, store, obj, text, answer);
    }
    refuse_on(rt, alloc, store, "fixed");
    refuse_on(rt, alloc, store, "set");
    expect_put(rt, alloc, store, ARRAY, "length", "length");
    expect_define(rt, alloc, store, ARRAY, "length", "length");
    expect_delete(rt, alloc, store, ARRAY, "length", "not configurable");
}

/// Nothing changes where a change is refused.
fn expect_refusals(rt: &impl Abort, alloc: Global) {
    let mut store = realm_over(rt, alloc, &[]);
    set_all(rt, alloc, &mut store);
    let obj = heir(rt, &mut store, FIRST);
    let before = written(rt, alloc, &mut store, 0);
    refuse_all(rt, alloc, &mut store, obj);
    let after = written(rt, alloc, &mut store, 0);
    expect(rt, before.as_str() == after.as_str(), "the objects");
}

/// What is found at names of the first object.
const SHOWN: [(&str, &str); 4] = [
    ("fixed", "held"),
    ("set", "no getter"),
    ("get", "getter"),
    ("none", "nothing"),
];

/// Properties are looked for along prototypes.
fn expect_shown(rt: &impl Abort, alloc: Global, rows: &[(&str, &str)]) {
    let mut store = realm_over(rt, alloc, &[]);
    set_all(rt, alloc, &mut store);
    let obj = heir(rt, &mut store, ARRAY);
    for (text, found) in rows {
        expect_found(rt, alloc, &store, obj, text, found);
        expect_own(rt, alloc, &store, obj, text, None);
    }
}

/// An heir of an array has a length of its own.
fn expect_own_length(rt: &impl Abort, alloc: Global) {
    let mut store = realm_over(rt, alloc, &[]);
    let obj = heir(rt, &mut store, ARRAY);
    expect_put(rt, alloc, &mut store, obj, "length", "done");
    expect_put(rt, alloc, &mut store, obj, "5", "done");
    expect_number(rt, alloc, &store, obj, "length", 1);
    expect_number(rt, alloc, &store, ARRAY, "length", 0);
}

fn hidden() -> Prop {
    Prop::Plain {
        value: number(1),
        flags: Flags {
            writable: true,
            enumerable: false,
            configurable: true,
        },
    }
}

fn put_all(rt: &impl Abort, alloc: Global, store: &mut Objects, obj: ObjRef, names: &[&str]) {
    for text in names {
        expect_put(rt, alloc, store, obj, text, "done");
    }
}

/// `b`, `10`, `2`, a symbol and `h`, which is hidden; then so many more names.
fn put_mixed(rt: &impl Abort, alloc: Global, store: &mut Objects, obj: ObjRef, more: &[&str]) {
    put_all(rt, alloc, store, obj, &["b", "10", "2"]);
    expect_done(rt, store, obj, Key::Sym(7), 1);
    let key = name(rt, alloc, "h");
    expect(rt, define(rt, store, obj, key, hidden()) == "done", "h");
    put_all(rt, alloc, store, obj, more);
}

/// Deletes `b`, and puts it and `h` again.
fn put_again(rt: &impl Abort, alloc: Global, store: &mut Objects, obj: ObjRef) {
    expect_delete(rt, alloc, store, obj, "b", "done");
    expect_own(rt, alloc, store, obj, "b", None);
    for (text, enumerable) in &[("b", true), ("h", false)] {
        expect_put(rt, alloc, store, obj, text, "done");
        expect_own(rt, alloc, store, obj, text, Some(*enumerable));
    }
}

/// What else is put, and the keys in their order: of an object without an index, and of one with it.
const ORDERS: [(&[&str], &str); 2] = [
    (&[], "2 10 h b @7 "),
    (
        &["k", "1", "m", "length", "name"],
        "1 2 10 h k m length name b @7 ",
    ),
];

/// Own keys have their order.
fn expect_orders(rt: &impl Abort, alloc: Global, rows: &[(&[&str], &str)]) {
    let mut store = realm_over(rt, alloc, &[]);
    for (more, order) in rows {
        let obj = heir(rt, &mut store, FIRST);
        put_mixed(rt, alloc, &mut store, obj, more);
        put_again(rt, alloc, &mut store, obj);
        expect_keys(rt, alloc, &store, obj, order);
    }
}

#[test]
fn properties_are_found_put_and_deleted(rt: HostRuntime) {
    expect_lengths(&rt, rt.alloc(), &LENGTHS);
    expect_refusals(&rt, rt.alloc());
    expect_shown(&rt, rt.alloc(), &SHOWN);
    expect_own_length(&rt, rt.alloc());
    expect_orders(&rt, rt.alloc(), &ORDERS);
}
